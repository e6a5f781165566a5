//! What is in scope at each name of a body, and the faults of the names: definitions and laws.
#![tactic(auto)]

mod laws;
mod states;

pub use laws::{
    jumps_have_targets, labels_are_around, local_is_meant, locals_are_apart, locals_are_declared,
    scope_ends,
};
pub use states::{Answer, Current, Frame, Opened, State};

//! The faults of the names of bodies, found by one walk over what a body says of names.
#![tactic(auto)]

mod context;
mod frames;
mod members;
mod states;
mod types;
mod walk;

pub use context::Context;
pub use walk::body_faults;

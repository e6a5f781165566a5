//! Which rules of the profile a typed project breaks, and where.
#![tactic(auto)]

mod laws;

pub use laws::{
    no_static_is_unset, statics_are_reached_by_classes, values_are_no_locks,
    values_have_no_identity,
};

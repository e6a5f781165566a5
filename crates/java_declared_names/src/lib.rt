//! The faults of the names that a class declares: its type parameters, fields and methods.
#![tactic(auto)]

mod members;
mod parameters;

pub use members::member_faults;
pub use parameters::{is_class, is_reserved_variable, parameter_faults};

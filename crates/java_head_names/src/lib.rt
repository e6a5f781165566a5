//! The faults of the names in the heads of classes and members.
#![tactic(auto)]

mod bounds;
mod heads;
mod members;
mod types;

pub use heads::head_faults;

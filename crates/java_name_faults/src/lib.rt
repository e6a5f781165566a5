//! The first fault of the names of a project.
#![tactic(auto)]

mod first;
mod notes;

pub use first::first_name_fault;
pub use notes::{Later, name_notes};

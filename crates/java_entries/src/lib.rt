//! The methods that the entries of a project name.
#![tactic(auto)]

mod entries;
mod methods;

pub use entries::{Count, entry_notes};

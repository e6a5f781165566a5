//! The Java files of a project are read: the units that they spell, or the first fault of their text.
#![tactic(auto)]

mod files;
pub mod laws;
mod project;

pub use project::spelling;

//! What the class around a body, its file and its project tell of names.
#![tactic(auto)]

mod answers;
mod surroundings;

pub use surroundings::Surroundings;

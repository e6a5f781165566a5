//! Words that a Kotlin text keeps for itself, as tables.
#![tactic(auto)]

mod words;

pub use words::{is_hard_keyword, is_reserved_name};

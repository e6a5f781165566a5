//! The words of Java that are no identifiers, as a table.
#![tactic(auto)]

pub mod laws;
mod words;

pub use words::{WordKind, word_kind};

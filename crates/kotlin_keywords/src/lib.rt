//! The words of Kotlin that mean something of their own, as a table.
#![tactic(auto)]

pub mod laws;
mod words;

pub use words::{WordKind, word_kind};

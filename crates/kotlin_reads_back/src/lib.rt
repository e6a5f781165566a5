//! What is printed of a Kotlin file reads back: its bytes spell it.
#![tactic(auto)]

pub mod laws;

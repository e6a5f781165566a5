//! How the canonical text of a Kotlin file is cut into classes.
#![tactic(auto)]

pub mod laws;

//! The canonical text of a Kotlin file is cut into the tokens that stand in it.
#![tactic(auto)]

pub mod laws;

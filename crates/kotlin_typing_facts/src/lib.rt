//! What follows of the parts of a well typed text of Kotlin, construct by construct, by laws.
#![tactic(auto)]

pub mod laws;

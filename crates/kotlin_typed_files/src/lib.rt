//! The typing of lists of Kotlin files, by definitions and laws: when they are well typed, and which fault is their first.
#![tactic(auto)]

pub mod laws;

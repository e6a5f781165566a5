//! The tables of a project of Kotlin files, by definitions and laws: its classes with their heads and members, each found by
//! its name.
#![tactic(auto)]

pub mod laws;

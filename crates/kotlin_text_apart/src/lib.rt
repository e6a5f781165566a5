//! The tokens of the canonical text of a Kotlin file stand apart: each ends where the next one begins, and brackets pair.
#![tactic(auto)]

pub mod laws;

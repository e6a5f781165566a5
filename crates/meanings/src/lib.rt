//! The trees of both languages, how they are spelled, and what they mean.
#![tactic(auto)]

pub mod kotlin;
pub mod laws;
pub mod names;
pub mod operators;

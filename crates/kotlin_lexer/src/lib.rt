//! The tokens of a Kotlin file, or the first place where none stands.
#![tactic(auto)]

mod cutting;
mod found;
mod laws;
mod lexing;
mod literals;
mod marks;
mod names;
mod nesting;
mod numbers;
mod pieces;

pub use laws::{exact_values, longest_mark, longest_runs, one_fault, one_reading};
pub use lexing::lex;

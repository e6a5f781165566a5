//! The tokens of a Java file.
#![tactic(auto)]

mod cutting;
mod found;
pub mod laws;
mod lexing;
mod literals;
mod marks;
mod names;
mod numbers;
mod pieces;

pub use lexing::lex;

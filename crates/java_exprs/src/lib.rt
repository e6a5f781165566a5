//! Expressions of Java from their tokens.
#![tactic(auto)]

mod climb;
mod creation;
mod ends;
mod found;
mod grammar;
mod groups;
mod operands;
mod parse;
mod suffixes;

pub use climb::{arguments, read};
pub use found::{ExprFound, ExprsFound};
pub use parse::parse_expr;

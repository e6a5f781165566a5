//! Grammars as data, over any tokens, forms and actions: what a grammar derives, the machine that reads by one kind ahead,
//! and the laws that join them.
#![tactic(auto)]

mod stack;
mod symbols;

pub use stack::Stack;
pub use symbols::Symbol;

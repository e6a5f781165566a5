//! How expressions and types are read from their tokens, and the laws of it: tokens spell at most one tree, and what is
//! read is what is spelled.
#![tactic(auto)]

mod laws;
mod suffix;

pub use laws::one_tree;
pub use suffix::Suffix;

//! What is printed is derived: the tokens of the canonical text of a type, an expression, a block or a class are written by
//! the Kotlin grammar, which builds the canonical tree of it.
#![tactic(auto)]

pub mod laws;

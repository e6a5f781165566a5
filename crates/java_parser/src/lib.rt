//! The unit that the tokens of a Java file spell.
#![tactic(auto)]

mod faults;
mod parsing;

pub use faults::SyntaxFault;
pub use parsing::parse;

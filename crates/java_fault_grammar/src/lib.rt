//! The runs of tokens of which a Java file consists, the forms that spell them, and the first run that no form of its place
//! spells.
#![tactic(auto)]

mod laws;

pub use laws::{assembled, closed, one_fault, one_form};

//! Types of Java as values, by definitions and laws: equality, type arguments in the place of parameters, supertypes with their
//! arguments, subtyping, the conversions of each context, and which methods take some arguments.
#![tactic(auto)]

mod heads;
mod kinds;
pub mod laws;
mod supers;

pub use heads::{ClassForm, Head, Heads};
pub use kinds::Simple;
pub use supers::{Sought, Step};

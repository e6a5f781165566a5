//! The heads of the library's classes: whether each is an interface or final, its type parameters, and its direct supertypes.
#![tactic(auto)]

mod heads;
mod rows;

pub use heads::library_heads;

//! Types of Kotlin as values, by definitions and laws: equality, type arguments in the place of type parameters,
//! supertypes, and subtyping with `?`.
#![tactic(auto)]

mod classes;
mod kinds;
pub mod laws;

pub use classes::{KClassHead, KClasses};
pub use kinds::{KClassRef, KHead, KKind, Nullability};

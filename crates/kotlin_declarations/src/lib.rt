//! The rules of declarations of Kotlin classes, by definitions and laws: overrides, what is abstract, supertypes, accessors.
#![tactic(auto)]

pub mod laws;

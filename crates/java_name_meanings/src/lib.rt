//! What the names of bodies mean: where nothing is at fault each has a meaning, and a local is meant in its scope.
#![tactic(auto)]

mod laws;

pub use laws::{locals_are_in_scope, names_have_meanings, scopes_are_found};

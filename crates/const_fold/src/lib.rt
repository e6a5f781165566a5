//! The values of constant expressions, computed on machine integers.
#![tactic(auto)]

mod bodies;
mod casts;
mod choosing;
mod folding;
mod laws;
mod operators;

pub use casts::cast;
pub use folding::fold;
pub use laws::{casts_are_covered, one_value, operators_are_covered};
pub use operators::fold2;

//! Classes that depend on themselves.
#![tactic(auto)]

mod edges;
mod laws;

pub use edges::{Edge, is_cyclic};
pub use laws::cycles_are_found;

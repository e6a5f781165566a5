//! Names are bound: a project whose names have no fault, with what they mean, or its first fault.
#![tactic(auto)]

mod binding;
mod facts;
mod faults;
mod laws;

pub use binding::{Bound, bind, let_go};
pub use facts::Facts;
pub use laws::{not_both, one_refusal};

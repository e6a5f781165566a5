//! The first run of a file that no form of its place spells. A run is the tokens outside of all brackets, or directly in the
//! body of a type, as far as what ends them, with the brackets that open among them.
#![tactic(auto)]

mod ends;
mod forms;
mod members;
mod places;
mod states;
mod walk;

pub use ends::{Run, first_run};
pub use places::End;
pub use walk::first_fault;

//! The line that is printed for a fault: its place, its code and the code's text.
#![tactic(auto)]

mod faults;

pub use faults::{line_of, not_built, push_number, push_place};

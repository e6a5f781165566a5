//! The tables of the Kotlin grammar in code.
#![tactic(auto)]

mod table;

pub use table::{accepts, blank_after, choose, is_end, written};

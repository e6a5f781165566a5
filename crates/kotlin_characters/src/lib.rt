//! The characters of a Kotlin file, read by a cursor over its bytes.
#![tactic(auto)]

mod letters;
mod scans;

pub use letters::{Cursor, Ending, Front, front_at, start};
pub use scans::{head_at, skip, tail_at};

//! The letters of a Java file: its characters with the Unicode escapes translated, read by a cursor
//! over its bytes.
#![tactic(auto)]

pub mod laws;
mod letters;
mod scans;

pub use letters::{Cursor, Ending, Front, digit, front_at, start};
pub use scans::{head_at, place_at, skip, tail_at};

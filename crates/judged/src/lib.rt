//! Judgements: what a part of a project is judged to be, with all that is noted of it, and the first of the faults.
#![tactic(auto)]

mod laws;
mod least;
mod notes;
mod parts;

pub use laws::{has_first, is_whole, one_first};
pub use least::{copy_fault, fault_cmp, first_fault};
pub use notes::{Note, add_fault, add_pending, fault_at};
pub use parts::{both, joined, joined_box};

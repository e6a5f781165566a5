//! The heads of statements from their pieces, with parts at a depth of at most a number.
#![tactic(auto)]

mod begins;
mod declarations;
mod found;
mod heads;
mod labels;
mod loops;
mod parts;
mod statements;

pub use heads::{for_head, lock, simple, switch_label};

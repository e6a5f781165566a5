//! What statements and members say of names, in the order in which they bind them.
#![tactic(auto)]

mod blocks;
mod heads;
mod members;

pub use blocks::statements;
pub use members::{Member, member_uses};

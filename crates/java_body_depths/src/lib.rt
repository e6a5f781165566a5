//! How deep each body stands in a head: each block of a lambda and each body of an anonymous class, in the order of
//! their `{`.
#![tactic(auto)]

mod heads;
mod walk;

pub use heads::{condition, constants, for_head, label, lock, member, simple, top};

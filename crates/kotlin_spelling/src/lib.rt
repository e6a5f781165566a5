//! Which file the bytes of a Kotlin file spell, and which is the first fault of bytes that spell none.
#![tactic(auto)]

pub mod laws;

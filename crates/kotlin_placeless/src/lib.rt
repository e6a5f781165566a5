//! What tokens spell doesn't depend on where they stand: at other places they spell the same tree with its places changed.
#![tactic(auto)]

pub mod laws;

//! What Java's statements do to their variables and where their control goes: definite assignment and reachability.
#![tactic(auto)]

mod laws;

pub use laws::{
    assigned_once, control_comes, finals_are_assigned, reads_are_assigned, scopes_are_parts,
};

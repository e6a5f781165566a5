//! What Kotlin's statements do to their variables and where their control goes: definite assignment and ends of bodies.
#![tactic(auto)]

mod laws;

pub use laws::{
    assigned_at_the_end, assigned_once, classes_are_kept, control_comes, members_are_kept,
    nothing_behind, properties_are_kept, reads_are_assigned, return_leaves_the_lock,
    run_stands_in_place,
};

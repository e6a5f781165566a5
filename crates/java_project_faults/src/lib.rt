//! All faults of assignment, of reachability and of the profile in a typed project as one list, and the first of them.
#![tactic(auto)]

mod laws;

pub use laws::{faults_are_in_order, one_fault_is_first, untold_rules_are_kept};

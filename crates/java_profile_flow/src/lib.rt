//! Which rules of the profile on locals, assignments and jumps a typed project breaks, and where.
#![tactic(auto)]

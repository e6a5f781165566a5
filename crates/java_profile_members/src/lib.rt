//! Which rules of the profile on members of classes and of those above them a typed project breaks, and where.
#![tactic(auto)]

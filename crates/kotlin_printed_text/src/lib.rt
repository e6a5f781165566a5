//! What is printed of a whole Kotlin file is spelled: its tokens are cut into the classes that it holds, and spell its tree.
#![tactic(auto)]

pub mod laws;

//! The canonical text of a Kotlin file.
#![tactic(auto)]

mod files;
mod members;

pub use files::print;

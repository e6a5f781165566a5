//! What the canonical text of Kotlin trees and equality up to places come to, as laws.
#![tactic(auto)]

pub mod laws;

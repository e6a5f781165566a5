//! The kinds of Kotlin tokens, with what stands behind each taken in.
#![tactic(auto)]

mod copies;
mod kinds;
mod lettering;
mod names;
mod spots;

pub use lettering::letters;

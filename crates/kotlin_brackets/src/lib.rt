//! Which brackets of a Kotlin file pair, and which is the first at fault.
#![tactic(auto)]

mod flaws;
mod laws;
mod scanning;
mod stack;

pub use flaws::{Flaw, Flawed};
pub use laws::{one_first_flaw, one_partner, pairs_match, pairs_nest};
pub use scanning::first_flaw;

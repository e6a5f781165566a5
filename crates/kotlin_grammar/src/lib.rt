//! The grammar of the Kotlin profile as a table: kinds of tokens with the look ahead taken in, terminals, forms, the ways to
//! write them, how one kind ahead chooses between these, and what is built of the parts.
#![tactic(auto)]

mod ahead;
mod built;
pub mod laws;
mod letters;
mod levels;

pub use ahead::{Letter, Spot, Step};
pub use built::{Built, ClassHead};
pub use letters::{Act, Form, Kind, Term, Way};
pub use levels::{Level, Levels, Parts};

//! Which units are taken: the typed tree of one that is, or the position of its first open form.
#![tactic(auto)]

mod expressions;
mod judged;
mod laws;
mod names;
mod places;
mod statements;
mod units;
mod words;

pub use judged::Judged;
pub use laws::{is_named, is_taken, is_typed, may_be_named};
pub use names::Names;
pub use units::judge;

//! The faults of the names in the bodies of classes, and of methods and constructors of one signature.
#![tactic(auto)]

mod names;
mod places;

pub use names::class_faults;
pub use places::{ClassPlace, class_places};

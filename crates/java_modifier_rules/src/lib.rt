//! Which modifiers, members and simple statements may stand where.
#![tactic(auto)]

mod fits;
mod members;
mod modifiers;

pub use fits::{Owner, Role, home_of, may_stand, member_fits, owner_of};
pub use members::type_fits;

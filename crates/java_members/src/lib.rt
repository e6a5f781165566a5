//! The fields and methods of classes by their names: declared and inherited, and from where they may be named.
#![tactic(auto)]

mod access;
mod classes;
mod inheritance;
mod laws;
mod walks;

pub use access::is_accessible;
pub use classes::{Access, Class, Declared, Member, Sort};
pub use inheritance::{Found, members};
pub use laws::{inherited_are_accessible, members_are_found, private_members, what_is_accessible};

//! The tokens of the heads of members and types, of an enum's constants and of the lines of packages and imports, with each
//! body as one.
#![tactic(auto)]

mod lines;
mod members;

pub use lines::{put_constants, put_import, put_package};
pub use members::{put_member, put_type_head};

//! The heads of members and types, the constants of an enum, and the lines of packages and imports, from their
//! pieces, with parts at a depth of at most a number.
#![tactic(auto)]

mod begins;
mod enums;
mod files;
mod heads;
mod members;
mod modifiers;
mod params;
mod parts;
mod types;

pub use heads::{before_block, before_semicolon, constants, import_line, package_line, type_head};

//! What names mean, looked up in constant time: classes by their names, the members of a class by theirs, and the locals in
//! scope.
#![tactic(auto)]

mod groups;
mod name_map;

pub use groups::{Groups, NamedRow, group};
pub use name_map::NameMap;

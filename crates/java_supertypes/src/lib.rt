//! The supertypes that the heads of classes name, and the classes that depend on themselves.
#![tactic(auto)]

mod cycles;
mod heads;
mod laws;
mod supers;

pub use cycles::{class_edges, cycle_faults};
pub use heads::{ClassKind, Heading, headings};
pub use laws::edges_are_supertypes;
pub use supers::{has_parameter, is_parameter, place_of, super_class};

//! Equality of types, type arguments in the place of parameters, supertypes with their arguments, subtyping, and the conversions
//! of each context, over a table of the heads of classes.
#![tactic(auto)]

mod casts;
mod contexts;
mod copying;
mod heads;
mod kinds;
mod same;
mod subtypes;
mod supers;

pub use casts::is_castable;
pub use contexts::{class_type, is_assignable, is_boxed, is_loose, is_unboxed};
pub use copying::{Arguments, copy_type, copy_types, copy_view, put};
pub use heads::{bound_in, form_in, head_of, supers_in};
pub use kinds::{
    box_of, fits, is_within, promoted, promoted_both, simple_in, simple_of, unboxed, widens,
};
pub use same::{is_same, is_same_view, same_list};
pub use subtypes::{Apart, is_below, is_object, is_subtype, take_apart};
pub use supers::supertype;

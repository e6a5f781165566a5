//! What Java's expressions, statements and initializers use, and the facts of its classes and fields: set, closed, calm, idle,
//! leading, quiet, and the accessors of a field.
#![tactic(auto)]

mod laws;

pub use laws::{
    accessors_are_pairs, boxes_begin_with_null, calm_classes_run_nothing_else, closed_classes_hide,
    exact_calls_show_this, idle_classes_are_silent, texts_of_objects_are_further,
    the_layout_keeps_facts,
};

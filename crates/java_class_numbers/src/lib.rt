//! The numbers of classes: the rows, the places, the headings and the members under one number are of one declaration.
#![tactic(auto)]

mod laws;

pub use laws::{
    declarations_stand, headings_are, one_class, one_order, places_are, rows_are, table_is,
};

//! The tables of classes and their members: those that a project declares, and those of the library.
#![tactic(auto)]

mod library;
mod members;
mod tables;

pub use tables::{class_table, number_of};

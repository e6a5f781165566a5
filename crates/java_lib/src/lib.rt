//! The library of Java that a project may use: its classes and members, and what each becomes in Kotlin.
#![tactic(auto)]

mod classes;
pub mod laws;
mod members;
mod numbers;
mod rows;
mod types;

pub use classes::{class_row, simple_row};
pub use members::member_rows;
pub use rows::{ClassRow, Form, LibKind, LibType, Mark, MemberRow};

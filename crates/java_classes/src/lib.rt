//! The classes and packages that a project declares, and the faults of their names.
#![tactic(auto)]

mod classes;
mod faults;
mod homes;
mod name_sets;
mod rows;

pub use classes::Classes;
pub use faults::{NameFault, class_faults, is_reserved, put_if};
pub use homes::{Packages, declared_packages, is_package};
pub use name_sets::Names;
pub use rows::{ClassRow, class_rows, dotted, package_name};

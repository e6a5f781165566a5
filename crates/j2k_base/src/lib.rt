//! What all other crates speak of: texts and names, lists of them, constants, places, faults and want of memory.
#![tactic(auto)]

mod choices;
mod constants;
mod errors;
mod file_map;
mod names;
mod places;
mod series;
mod tables;
mod texts;
mod widths;

pub use choices::{Choice, ChoiceKind, Choices};
pub use constants::{CExpr, Const, Kind, Op2, Value};
pub use errors::NoMemory;
pub use file_map::FileMap;
pub use names::Name;
pub use places::{Fault, Phase, Place, Stop};
pub use series::{EntryNames, FileBytes, Paths, Series, SourceFile, SourceFiles, Units, Words};
pub use tables::{Row, Table};
pub use texts::Text;
pub use widths::{wrap_i8, wrap_i16, wrap_i32, wrap_i64, wrap_u16};

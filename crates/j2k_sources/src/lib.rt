//! The files of a project, read from a disk within limits on their number and sizes.
#![tactic(auto)]

mod halt;
pub mod laws;
mod limits;
mod loading;

pub use halt::{Halt, list, write};
pub use limits::{Excess, MAX_FILE_BYTES, MAX_FILES, MAX_SETTINGS_BYTES, MAX_TOTAL_BYTES};
pub use loading::{JAVA_END, Loaded, Sources, is_java, load};

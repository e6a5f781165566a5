//! The settings of a project, which stand in its file `j2k.toml`.
#![tactic(auto)]

pub mod laws;
mod reading;

pub use reading::{ENTRIES, SETTINGS_FILE, settings};

//! The commands of the converter, over a disk and a sink that are handed in.
#![tactic(auto)]

mod answers;
mod command;
mod conversion;
mod files;
mod laws;
mod paths;
mod printing;
mod project;
mod report;
mod status;
mod texts;
mod words;
mod writing;

pub use command::run;
pub use laws::{one_answer, one_fault};
pub use status::Status;

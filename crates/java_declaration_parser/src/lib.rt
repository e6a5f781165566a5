//! Declarations of variables behind their types, and arguments: what heads of statements and of members have in common.
#![tactic(auto)]

mod args;
mod begins;
mod declarations;
mod found;

pub use args::args_read;
pub use begins::{at_end, semicolon};
pub use declarations::declaration_of;
pub use found::{ArgsFound, ListFound};

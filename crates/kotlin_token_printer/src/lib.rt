//! How the tokens of a Kotlin text are printed, with what stands between them.
#![tactic(auto)]

mod printer;
mod spelling;

pub use printer::Printer;

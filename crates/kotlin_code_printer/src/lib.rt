//! The canonical text of Kotlin's types, expressions and statements.
#![tactic(auto)]

mod places;
mod tokens;
mod types;
mod walk;

pub use places::FREE;
pub use tokens::{assigns, close_block, comma, has_type, line, mark, open_block, word};
pub use types::{kind, qualified};
pub use walk::{arguments, block, declared, expression};

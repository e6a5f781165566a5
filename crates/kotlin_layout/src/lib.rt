//! The canonical text of Kotlin trees: the tokens of a tree, what stands between them, and where parentheses are needed.
#![tactic(auto)]

mod glyphs;
mod parens;

pub use glyphs::Glyph;
pub use parens::{Neighbor, Place, level_of, needs_parens};

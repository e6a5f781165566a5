//! What a Java file declares, from its tokens, each token a piece.
#![tactic(auto)]

mod files;
mod lists;
mod parts;
mod tops;

pub use files::{Declared, unit};

//! The rules for what has a head, over those for what has none.

use java_block_parser::Grammar;

#[derive(Clone, Copy)]
pub struct Rules<F> {
    pub parts: Grammar<F>,
}

/// How deep the parts of a member may be.
#[derive(Clone, Copy)]
pub struct Depths {
    /// Its types.
    pub types: usize,
    /// Its values, less one.
    pub values: usize,
    /// What holds its bodies, less one.
    pub holder: usize,
    /// Whether it stands in no expression.
    pub is_top: bool,
}

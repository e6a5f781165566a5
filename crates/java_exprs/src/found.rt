//! What a reader of expressions has found.

use java_tree::{JCreated, JExpr, JParams, Position};
use sqlite_items::{Boxed, Items};

/// An expression and its depth.
#[derive(Drop)]
pub struct ExprFound {
    pub tree: Boxed<JExpr>,
    pub depth: usize,
}

/// Expressions, the commas between them, and the depth of the deepest.
#[derive(Drop)]
pub struct ExprsFound {
    pub items: Items<JExpr>,
    pub commas: Items<Position>,
    pub deepest: usize,
}

/// The parameters of a lambda and their depth.
#[derive(Drop)]
pub struct Params {
    pub tree: JParams,
    pub depth: usize,
}

/// What is created and its depth.
#[derive(Drop)]
pub struct Made {
    pub tree: JCreated,
    pub depth: usize,
}

/// A conditional as far as its `:`.
#[derive(Drop)]
pub struct Half {
    pub left: ExprFound,
    pub question: Position,
    pub middle: ExprFound,
    pub at: Position,
}

/// An expression after a turn, and whether it took a suffix.
#[derive(Drop)]
pub struct Grown {
    pub found: ExprFound,
    pub is_longer: bool,
}

// What the grammar sees as one.

use java_tree::{JToken, Position, Span};

/// A token, or one with the body directly behind it.
#[derive(Clone, Copy)]
pub enum Piece<'a> {
    Token(&'a JToken),
    /// `->` and the block of a lambda.
    Block(Position, Span),
    /// `)` and the body of an anonymous class.
    Body(Position, Span),
}

/// A part of a list of them.
pub type Pieces<'a> = &'a [Piece<'a>];

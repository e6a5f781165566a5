// What a tree writes.

use java_tree::{JToken, Position, Span};

/// A token, or a token with the body behind it, whose tokens stand elsewhere.
#[derive(Drop)]
pub enum Written {
    Token(JToken),
    /// A `->` with the block behind it.
    Block(Position, Span),
    /// A `)` with the body of an anonymous class behind it.
    Body(Position, Span),
}

//! What goes on after an operand.

use java_tree::{AssignOp, BinaryOp, Position, PostfixOp};

/// The beginning of what goes on after an operand.
#[derive(Clone, Copy)]
pub enum Suffix {
    Binary(BinaryOp, Position),
    Assign(AssignOp, Position),
    Question(Position),
    Dot(Position),
    Square(Position),
    Postfix(PostfixOp, Position),
    Instanceof(Position),
}

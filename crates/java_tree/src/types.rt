// Types as they are written.

use crate::Position;
use j2k_base::Name;
use sqlite_items::{Boxed, Items};

/// The name of a primitive type (JLS 4.2).
#[derive(Clone, Copy, Debug, PartialEq, Eq)]
pub enum Primitive {
    Byte,
    Short,
    Char,
    Int,
    Long,
    Boolean,
}

/// A dot and the name behind it.
#[derive(Drop)]
pub struct JDotted {
    pub dot: Position,
    pub name: Name,
    pub at: Position,
}

/// A name, and those behind it with dots (JLS 6.2).
#[derive(Drop)]
pub struct JQualified {
    pub name: Name,
    pub at: Position,
    pub rest: Items<JDotted>,
}

/// `[` and `]`.
#[derive(Clone, Copy, Debug, PartialEq, Eq)]
pub struct JBrackets {
    pub opens: Position,
    pub closes: Position,
}

/// A type (JLS 4).
#[derive(Drop)]
pub enum JType {
    Primitive(Primitive, Position),
    Class(JQualified),
    /// A name, `<`, the arguments, the commas between them, and the `>`: whether another `>` or
    /// a `=` stands directly behind it, and its position.
    Applied(JQualified, Position, Items<JType>, Items<Position>, bool, Position),
    /// The type of the elements, which is no array, and a pair of brackets for each dimension.
    Array(Boxed<JType>, Items<JBrackets>),
}

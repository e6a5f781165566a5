// Expressions as they are written. A position stands where its token stands.

use crate::{JBrackets, JQualified, JType, Position};
use j2k_base::{Name, Units};
use sqlite_items::{Boxed, Items};

/// A literal (JLS 3.10).
#[derive(Drop)]
pub enum JLiteral {
    /// The 32 bits of its value.
    Integer(u32),
    /// Decimal 2147483648.
    LeastInteger,
    /// The 64 bits of its value.
    Long(u64),
    /// Decimal 9223372036854775808L.
    LeastLong,
    /// A 16-bit unit.
    Character(u16),
    Text(Units),
    True,
    False,
    Null,
}

/// An operator before its operand (JLS 15.15).
#[derive(Clone, Copy, Debug, PartialEq, Eq)]
pub enum PrefixOp {
    Plus,
    Minus,
    Increment,
    Decrement,
    Complement,
    Not,
}

/// An operator behind its operand (JLS 15.14).
#[derive(Clone, Copy, Debug, PartialEq, Eq)]
pub enum PostfixOp {
    Increment,
    Decrement,
}

/// An operator between its operands (JLS 15.17 to 15.24). Where it is made of several tokens it
/// holds the positions of those behind the first.
#[derive(Clone, Copy, Debug, PartialEq, Eq)]
pub enum BinaryOp {
    OrElse,
    AndAlso,
    BitOr,
    BitXor,
    BitAnd,
    Equal,
    NotEqual,
    Less,
    LessEqual,
    Greater,
    GreaterEqual(Position),
    ShiftLeft,
    ShiftRight(Position),
    ShiftUnsigned(Position, Position),
    Add,
    Subtract,
    Multiply,
    Divide,
    Remainder,
}

/// An assignment operator (JLS 15.26). Where it is made of several tokens it holds the positions
/// of those behind the first.
#[derive(Clone, Copy, Debug, PartialEq, Eq)]
pub enum AssignOp {
    Plain,
    Add,
    Subtract,
    Multiply,
    Divide,
    Remainder,
    ShiftLeft,
    ShiftRight(Position, Position),
    ShiftUnsigned(Position, Position, Position),
    BitAnd,
    BitOr,
    BitXor,
}

/// The block of a lambda or the body of an anonymous class, not read yet: `{`, the tokens of the
/// file from the number `from` to before the number `to`, and `}`.
#[derive(Clone, Copy, Debug, PartialEq, Eq)]
pub struct Span {
    pub opens: Position,
    pub from: u32,
    pub to: u32,
    pub closes: Position,
}

/// The parameter of a lambda that names no type.
#[derive(Drop)]
pub struct JParam {
    pub name: Name,
    pub at: Position,
}

/// A parameter with its type: `final` where it stands, the type, the name (JLS 8.4.1).
#[derive(Drop)]
pub struct JTypedParam {
    pub is_final: Option<Position>,
    pub kind: JType,
    pub name: Name,
    pub at: Position,
}

/// The parameters of a lambda: one name, or names with commas between them in parentheses, or
/// parameters with types, which may be none (JLS 15.27.1).
#[derive(Drop)]
pub enum JParams {
    One(JParam),
    Several(Position, Items<JParam>, Items<Position>, Position),
    Typed(Position, Items<JTypedParam>, Items<Position>, Position),
}

/// The class that is created (JLS 15.9): a type, or a name with `<` and `>` behind it and whether
/// another `>` or a `=` stands directly behind that.
#[derive(Drop)]
pub enum JCreated {
    Type(JType),
    Inferred(JQualified, Position, bool, Position),
}

/// An expression.
#[derive(Drop)]
pub enum JExpr {
    Name(Name, Position),
    Literal(JLiteral, Position),
    This(Position),
    /// `(`, the inner expression, `)`.
    Paren(Position, Boxed<JExpr>, Position),
    /// The name, `(`, the arguments, the commas between them, `)`.
    Call(Name, Position, Position, Items<JExpr>, Items<Position>, Position),
    /// `super`, the dot, the name, `(`, the arguments, the commas between them, `)`.
    SuperCall(
        Position,
        Position,
        Name,
        Position,
        Position,
        Items<JExpr>,
        Items<Position>,
        Position,
    ),
    /// The object, the dot, the name.
    Field(Boxed<JExpr>, Position, Name, Position),
    /// The object, the dot, the name, `(`, the arguments, the commas between them, `)`.
    Method(
        Boxed<JExpr>,
        Position,
        Name,
        Position,
        Position,
        Items<JExpr>,
        Items<Position>,
        Position,
    ),
    /// The array, `[`, the index, `]`.
    Element(Boxed<JExpr>, Position, Boxed<JExpr>, Position),
    Postfix(Boxed<JExpr>, PostfixOp, Position),
    Prefix(PrefixOp, Position, Boxed<JExpr>),
    /// `-` and the literal that only it takes (JLS 3.10.1).
    MinusLeast(Position, JLiteral, Position),
    /// `(`, the type, `)`, the operand.
    Cast(Position, JType, Position, Boxed<JExpr>),
    Binary(Boxed<JExpr>, BinaryOp, Position, Boxed<JExpr>),
    /// The operand, `instanceof`, the type.
    Instanceof(Boxed<JExpr>, Position, JType),
    /// The condition, `?`, the first choice, `:`, the second.
    Conditional(Boxed<JExpr>, Position, Boxed<JExpr>, Position, Boxed<JExpr>),
    Assign(Boxed<JExpr>, AssignOp, Position, Boxed<JExpr>),
    /// The parameters, `->`, the body.
    Lambda(JParams, Position, Boxed<JExpr>),
    /// The parameters, `->`, the block.
    LambdaBlock(JParams, Position, Span),
    /// `new`, the class, `(`, the arguments, the commas between them, `)`, the body where it is
    /// an anonymous class.
    New(Position, JCreated, Position, Items<JExpr>, Items<Position>, Position, Option<Span>),
    /// `new`, the type of the elements, which is no array, `[`, the size, `]`, and a pair of
    /// brackets for each further dimension.
    NewArray(Position, JType, Position, Boxed<JExpr>, Position, Items<JBrackets>),
    /// `new`, the type of the elements, which is no array, a pair of brackets for each dimension,
    /// `{`, the values, the commas between them, one more where it stands, `}`.
    NewFilled(
        Position,
        JType,
        Items<JBrackets>,
        Position,
        Items<JExpr>,
        Items<Position>,
        Option<Position>,
        Position,
    ),
    /// The values of an array in braces (JLS 10.6), which stand where a declaration or an array
    /// takes its value: `{`, the values, the commas between them, one more where it stands, `}`.
    Braces(Position, Items<JExpr>, Items<Position>, Option<Position>, Position),
}

// Constants, and the trees whose values they are.

use crate::Units;
use sqlite_items::Boxed;

/// The integer types (JLS 4.2.1).
#[derive(Clone, Copy, Debug, PartialEq, Eq)]
pub enum Kind {
    Byte,
    Short,
    Char,
    Int,
    Long,
}

/// The binary operators of constant expressions (JLS 15.28).
#[derive(Clone, Copy, Debug, PartialEq, Eq)]
pub enum Op2 {
    /// `+`
    Add,
    /// `-`
    Sub,
    /// `*`
    Mul,
    /// `/`
    Div,
    /// `%`
    Rem,
    /// `<<`
    Shl,
    /// `>>`
    Shr,
    /// `>>>`
    Ushr,
    /// `&`
    And,
    /// `|`
    Or,
    /// `^`
    Xor,
    /// `<`
    Lt,
    /// `<=`
    Le,
    /// `>`
    Gt,
    /// `>=`
    Ge,
    /// `==`
    Eq,
    /// `!=`
    Ne,
    /// `&&`
    AndAlso,
    /// `||`
    OrElse,
}

/// A value of an integer type, or a truth value.
#[derive(Clone, Copy, Debug, PartialEq, Eq)]
pub enum Const {
    Byte(i8),
    Short(i16),
    Char(u16),
    Int(i32),
    Long(i64),
    Bool(bool),
}

/// The value of a constant expression.
#[derive(Debug, Drop)]
pub enum Value {
    Number(Const),
    /// A String, as its 16-bit units.
    Text(Units),
}

/// A constant expression (JLS 15.28).
#[derive(Debug, Drop)]
pub enum CExpr {
    /// A literal, or the value of a constant's name.
    Leaf(Value),
    /// `(k) e`
    Cast(Kind, Boxed<CExpr>),
    /// `+e`
    Plus(Boxed<CExpr>),
    /// `-e`
    Minus(Boxed<CExpr>),
    /// `~e`
    Flip(Boxed<CExpr>),
    /// `!e`
    Not(Boxed<CExpr>),
    /// `a op b`
    Two(Op2, Boxed<CExpr>, Boxed<CExpr>),
    /// `c ? a : b`
    Choose(Boxed<CExpr>, Boxed<CExpr>, Boxed<CExpr>),
}

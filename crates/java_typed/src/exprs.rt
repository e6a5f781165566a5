// Expressions.

use crate::{MemberRef, TResult, TType, TWritten};
use j2k_base::{Kind, Name, Op2, Value};
use java_tree::{Position, PostfixOp};
use sqlite_items::{Boxed, Items};

/// An operator before its operand, which has the promoted type (JLS 15.15.3 to 15.15.6).
#[derive(Clone, Copy, PartialEq, Eq)]
pub enum UnaryOp {
    Plus,
    Minus,
    Complement,
    Not,
}

/// A conversion of values (JLS 5.1). That of a subtype is none, and that to a String belongs to the construct that makes it.
#[derive(Clone, Copy, PartialEq, Eq)]
pub enum Conversion {
    /// From a type to another, wider or narrower (JLS 5.1.2 to 5.1.4).
    Number(Kind, Kind),
    /// A number to its box and back (JLS 5.1.7, 5.1.8).
    Box(Kind),
    Unbox(Kind),
    /// A truth value to its box and back (JLS 5.1.7, 5.1.8).
    BoxBoolean,
    UnboxBoolean,
}

/// A parameter of a lambda.
#[derive(Drop)]
pub struct TLambdaParam {
    pub name: Name,
    pub at: Position,
    pub kind: TWritten,
}

/// A lambda without its body (JLS 15.27): its first token, its number among the lambdas of its class in the order of the
/// text, the parameters, the locals that it captures, the interface that it is of, and the method that it stands for.
#[derive(Drop)]
pub struct TLambda {
    pub at: Position,
    pub number: u32,
    pub params: Items<TLambdaParam>,
    pub captured: Items<Name>,
    pub face: TType,
    pub method: MemberRef,
}

/// An expression (JLS 15). Operands that are converted are `Convert` nodes. The block of a lambda and the body of an
/// anonymous class stand beside the statement or the initializer that the expression belongs to, by their number among its
/// bodies.
#[derive(Drop)]
pub enum TExpr {
    /// A literal but `null`, the least number of a type with its `-` (JLS 15.8.1).
    Literal(Value, Position),
    Null(Position),
    /// The value of a constant expression that is no literal, and its tree (JLS 15.28).
    Constant(Value, Boxed<TExpr>),
    /// `this`, where it stands, or where a name stands that belongs to it (JLS 15.8.3).
    This {
        at: Position,
        is_written: bool,
        kind: TType,
    },
    /// An expression in parentheses (JLS 15.8.5).
    Paren(Position, Boxed<TExpr>),
    /// A local or a parameter, by its name: in the text of one class no two of one name are in scope at a place (JLS 6.4,
    /// 6.5.6.1).
    Local(Name, Position, TType),
    /// A static field: the first token, the field, where its name stands (JLS 6.5.6, 15.11).
    Static {
        first: Position,
        member: MemberRef,
        at: Position,
        kind: TType,
    },
    /// A field of an object (JLS 15.11).
    Field {
        object: Boxed<TExpr>,
        member: MemberRef,
        at: Position,
        kind: TType,
    },
    /// The length of an array (JLS 10.7).
    Length(Boxed<TExpr>, Position),
    /// An element of an array: the array, the index (JLS 15.10.3).
    Element(Boxed<TExpr>, Boxed<TExpr>, TType),
    /// A call of a static method: the first token, the method, where its name stands (JLS 15.12).
    StaticCall {
        first: Position,
        member: MemberRef,
        at: Position,
        arguments: Items<TExpr>,
        result: TResult,
    },
    /// A call of the method that overrides this one in the object's class (JLS 15.12.4.4).
    VirtualCall {
        object: Boxed<TExpr>,
        member: MemberRef,
        at: Position,
        arguments: Items<TExpr>,
        result: TResult,
    },
    /// A call of just this method: it is private, or called by `super`, where the object is `this` (JLS 15.12.4.4).
    ExactCall {
        object: Boxed<TExpr>,
        is_super: bool,
        member: MemberRef,
        at: Position,
        arguments: Items<TExpr>,
        result: TResult,
    },
    /// A static member that is reached by an expression, which is evaluated and let go (JLS 15.11.1, 15.12.4.1).
    Through(Boxed<TExpr>, Boxed<TExpr>),
    /// `++` or `--`, before or behind its target: the kind in which the sum is made (JLS 15.14.2, 15.14.3, 15.15.1, 15.15.2).
    Step {
        is_prefix: bool,
        op: PostfixOp,
        at: Position,
        target: Boxed<TExpr>,
        kind: Kind,
    },
    Unary(UnaryOp, Position, Boxed<TExpr>),
    /// An operator on two values of primitive types. The operands have the type that it works in; a distance of a shift has
    /// its own promoted type (JLS 15.17 to 15.24).
    Binary {
        left: Boxed<TExpr>,
        op: Op2,
        at: Position,
        right: Boxed<TExpr>,
    },
    /// `+` with a String (JLS 15.18.1).
    Concat(Boxed<TExpr>, Position, Boxed<TExpr>),
    /// `==`, else `!=`, of two references (JLS 15.21.3).
    Same {
        left: Boxed<TExpr>,
        is_equal: bool,
        at: Position,
        right: Boxed<TExpr>,
    },
    Instanceof(Boxed<TExpr>, Position, TWritten),
    /// A cast. What it does to a value of a primitive type or a box is a conversion within it (JLS 15.16).
    Cast(Position, TWritten, Boxed<TExpr>),
    Convert(Conversion, Boxed<TExpr>),
    /// `test ? first : second` (JLS 15.25).
    Conditional {
        test: Boxed<TExpr>,
        first: Boxed<TExpr>,
        second: Boxed<TExpr>,
        kind: TType,
    },
    /// The target, where `=` stands, the value (JLS 15.26.1).
    Assign(Boxed<TExpr>, Position, Boxed<TExpr>),
    /// A compound assignment but to a String: the kind in which the operator works, none on truth values (JLS 15.26.2).
    Compound {
        target: Boxed<TExpr>,
        op: Op2,
        kind: Option<Kind>,
        at: Position,
        value: Boxed<TExpr>,
    },
    /// `+=` on a String (JLS 15.26.2).
    Append(Boxed<TExpr>, Position, Boxed<TExpr>),
    /// A lambda whose body is an expression.
    Lambda(TLambda, Boxed<TExpr>),
    /// A lambda whose body is a block: the number of its block.
    LambdaBlock(TLambda, u32),
    /// `new`, the class, the constructor, the arguments, the number of its body where it is an anonymous class (JLS 15.9).
    New {
        at: Position,
        kind: TWritten,
        member: MemberRef,
        arguments: Items<TExpr>,
        body: Option<u32>,
    },
    /// `new`, the type of the array, its length (JLS 15.10.1).
    NewArray(Position, TWritten, Boxed<TExpr>),
    /// An array with its elements: the first token, the type of the array (JLS 10.6).
    NewFilled(Position, TWritten, Items<TExpr>),
}

pub type TExprs = Items<TExpr>;

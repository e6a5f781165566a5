// Statements.

use crate::{ClassRef, TExpr, TWritten};
use j2k_base::{Name, Value};
use java_tree::Position;
use sqlite_items::{Boxed, Items};

/// A local, and its value in its type where it has one (JLS 14.4).
#[derive(Drop)]
pub struct TDeclarator {
    pub name: Name,
    pub at: Position,
    pub kind: TWritten,
    pub is_final: bool,
    pub value: Option<TExpr>,
}

/// What a statement that holds no other does (JLS 14.4, 14.6, 14.8, 14.15 to 14.18).
#[derive(Drop)]
pub enum TSimple {
    Empty,
    Locals(Items<TDeclarator>),
    Value(TExpr),
    /// The label where one stands.
    Break(Option<Name>),
    Continue(Option<Name>),
    Return(Option<TExpr>),
    Throw(TExpr),
}

/// How a basic `for` begins (JLS 14.14.1).
#[derive(Drop)]
pub enum TForStart {
    Locals(Items<TDeclarator>),
    Values(Items<TExpr>),
}

/// A label of a switch: the value in the type of the subject and its tree, or `default` (JLS 14.11).
#[derive(Drop)]
pub enum TLabel {
    Case(Position, Value, TExpr),
    Default(Position),
}

/// What a synchronized statement locks: an object, or a class as an object (JLS 14.19, 15.8.2).
#[derive(Drop)]
pub enum TLock {
    Value(TExpr),
    Class(ClassRef),
}

/// What stands between the braces of a lambda's block, or the anonymous class that a body declares, by its place among the
/// classes of the unit.
#[cycle(typed)]
#[derive(Drop)]
pub enum TBody {
    Statements(Items<TStatement>),
    Class(u32),
}

/// Labels that stand together, and the statements behind them (JLS 14.11).
#[cycle(typed)]
#[derive(Drop)]
pub struct TCaseGroup {
    pub labels: Items<TLabel>,
    pub statements: Items<TStatement>,
}

/// A clause of a `try` that catches (JLS 14.20).
#[cycle(typed)]
#[derive(Drop)]
pub struct TCatch {
    pub at: Position,
    pub caught: TDeclarator,
    pub statements: Items<TStatement>,
}

/// A statement (JLS 14), from its first token. The bodies that its own expressions hold stand beside them.
#[cycle(typed)]
#[derive(Drop)]
pub enum TStatement {
    Simple(Position, TSimple, Items<TBody>),
    /// `{`, the statements, `}`.
    Block(Position, Items<TStatement>, Position),
    Labeled(Position, Name, Boxed<TStatement>),
    If {
        at: Position,
        test: TExpr,
        bodies: Items<TBody>,
        inner: Boxed<TStatement>,
    },
    IfElse {
        at: Position,
        test: TExpr,
        bodies: Items<TBody>,
        inner: Boxed<TStatement>,
        other: Boxed<TStatement>,
    },
    While {
        at: Position,
        test: TExpr,
        bodies: Items<TBody>,
        inner: Boxed<TStatement>,
    },
    Do {
        at: Position,
        inner: Boxed<TStatement>,
        test: TExpr,
        bodies: Items<TBody>,
    },
    For {
        at: Position,
        start: TForStart,
        test: Option<TExpr>,
        updates: Items<TExpr>,
        bodies: Items<TBody>,
        inner: Boxed<TStatement>,
    },
    /// Through the elements of an array, or the values that an object iterates over (JLS 14.14.2).
    Each {
        at: Position,
        variable: TDeclarator,
        values: TExpr,
        bodies: Items<TBody>,
        inner: Boxed<TStatement>,
    },
    Switch {
        at: Position,
        subject: TExpr,
        bodies: Items<TBody>,
        groups: Items<TCaseGroup>,
    },
    Synchronized {
        at: Position,
        lock: TLock,
        bodies: Items<TBody>,
        statements: Items<TStatement>,
    },
    /// The statements, the catches, and the statements of `finally` where it stands, with its position.
    Try {
        at: Position,
        statements: Items<TStatement>,
        catches: Items<TCatch>,
        last: Option<Position>,
        finally: Items<TStatement>,
    },
}

pub type TStatements = Items<TStatement>;

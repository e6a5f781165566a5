// Statements as they are written.

use crate::{Brackets, Comments, KElseAt, KExpr, KHeadAt, KName, KType, Position};
use sqlite_items::{Boxed, Items};

/// The word, `val` or `var`, of a declaration.
#[derive(Clone, Copy)]
pub enum KVariability {
    Val,
    Var,
}

/// What stands of a declaration before its value: `val` or `var`, the name, `:`, the type.
#[derive(Drop)]
pub struct KDeclared {
    pub word: KVariability,
    pub at: Position,
    pub name: KName,
    pub colon: Position,
    pub kind: KType,
}

/// A label before a loop: the name and `@`.
#[derive(Drop)]
pub struct KLabel {
    pub name: KName,
    pub at: Position,
}

/// Where a jump goes: `@` and the name.
#[derive(Drop)]
pub struct KTarget {
    pub at: Position,
    pub name: KName,
}

/// `finally`, `{` and `}`.
#[derive(Clone, Copy)]
pub struct KFinallyAt {
    pub word: Position,
    pub curly: Brackets,
}

/// An alternative of a `when` that stands as a statement: its labels, the commas between them, `->`, `{`, the
/// statements, `}`.
#[cycle(code)]
#[derive(Drop)]
pub struct KBranch {
    pub labels: Items<KExpr>,
    pub commas: Items<Position>,
    pub arrow: Position,
    pub curly: Brackets,
    pub statements: Items<KStmt>,
}

/// `catch`, `(`, the name, `:`, the type, `)`, `{`, the statements, `}`.
#[cycle(code)]
#[derive(Drop)]
pub struct KCatch {
    pub at: KHeadAt,
    pub name: KName,
    pub colon: Position,
    pub kind: KType,
    pub curly: Brackets,
    pub statements: Items<KStmt>,
}

/// A statement (Kotlin, "Statements").
#[cycle(code)]
#[derive(Drop)]
pub enum KStmt {
    /// A statement with comments that are printed before it. What was read holds none.
    Commented(Comments, Boxed<KStmt>),
    /// A declaration without a value.
    Declared(KDeclared),
    /// A declaration, `=`, the value.
    Local(KDeclared, Position, KExpr),
    Expression(KExpr),
    /// What is assigned to, which is a name, a member or an element; `=`; the value.
    Assign(KExpr, Position, KExpr),
    /// The label where one stands, `while`, `(`, the condition, `)`, `{`, the statements, `}`.
    While {
        label: Option<KLabel>,
        at: KHeadAt,
        condition: KExpr,
        curly: Brackets,
        statements: Items<KStmt>,
    },
    /// The label where one stands, `do`, `{`, the statements, `}`, `while`, `(`, the condition, `)`.
    DoWhile {
        label: Option<KLabel>,
        do_at: Position,
        curly: Brackets,
        statements: Items<KStmt>,
        at: KHeadAt,
        condition: KExpr,
    },
    /// The label where one stands, `for`, `(`, the name, `in`, what is walked through, `)`, `{`, the statements, `}`.
    For {
        label: Option<KLabel>,
        at: KHeadAt,
        name: KName,
        in_at: Position,
        values: KExpr,
        curly: Brackets,
        statements: Items<KStmt>,
    },
    /// The label where one stands, `for`, `(`, the name, `in`, the first number, `until`, the end, `)`, `{`, the
    /// statements, `}`.
    ForRange {
        label: Option<KLabel>,
        at: KHeadAt,
        name: KName,
        in_at: Position,
        first: KExpr,
        until_at: Position,
        end: KExpr,
        curly: Brackets,
        statements: Items<KStmt>,
    },
    /// `if`, `(`, the condition, `)`, `{`, the statements, `}`.
    If {
        at: KHeadAt,
        condition: KExpr,
        curly: Brackets,
        statements: Items<KStmt>,
    },
    /// `if`, `(`, the condition, `)`, `{`, the statements, `}`, `else`, `{`, the others, `}`.
    IfElse {
        at: KHeadAt,
        condition: KExpr,
        curly: Brackets,
        statements: Items<KStmt>,
        else_at: Position,
        other_curly: Brackets,
        others: Items<KStmt>,
    },
    /// `if`, `(`, the condition, `)`, `{`, the statements, `}`, `else`, and one more `if`.
    IfElseIf {
        at: KHeadAt,
        condition: KExpr,
        curly: Brackets,
        statements: Items<KStmt>,
        else_at: Position,
        other: Boxed<KStmt>,
    },
    /// `when`, `(`, the subject, `)`, `{`, the alternatives, `else`, `->`, `{`, the other statements, `}`, `}`.
    When {
        at: KHeadAt,
        subject: KExpr,
        curly: Brackets,
        branches: Items<KBranch>,
        else_at: KElseAt,
        other_curly: Brackets,
        others: Items<KStmt>,
    },
    /// `break`, and where it goes.
    Break(Position, Option<KTarget>),
    /// `continue`, and where it goes.
    Continue(Position, Option<KTarget>),
    /// `return` without a value, and where it goes.
    Return(Position, Option<KTarget>),
    /// `return`, where it goes, the value.
    Give(Position, Option<KTarget>, KExpr),
    /// `throw` and the value.
    Throw(Position, KExpr),
    /// `try`, `{`, the statements, `}`, the catches.
    Try {
        at: Position,
        curly: Brackets,
        statements: Items<KStmt>,
        catches: Items<KCatch>,
    },
    /// `try`, `{`, the statements, `}`, the catches, `finally`, `{`, the last statements, `}`.
    TryFinally {
        at: Position,
        curly: Brackets,
        statements: Items<KStmt>,
        catches: Items<KCatch>,
        last_at: KFinallyAt,
        last: Items<KStmt>,
    },
    /// `synchronized`, `(`, the lock, `)`, `{`, the statements, `}`.
    Synchronized {
        at: KHeadAt,
        lock: KExpr,
        curly: Brackets,
        statements: Items<KStmt>,
    },
}

/// `{`, the statements, `}` of a member.
#[derive(Drop)]
pub struct KBlock {
    pub curly: Brackets,
    pub statements: Items<KStmt>,
}

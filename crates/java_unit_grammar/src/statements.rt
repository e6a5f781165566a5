// Statements, and members, which stand in an anonymous class within a statement.
//
// An expression holds the place of each block of a lambda and of each body of an anonymous class as a `Span`; the bodies
// stand beside the head whose expressions they belong to, in the order of their `{`. A `Span` counts the tokens of its head.

use j2k_base::Name;
use java_member_grammar::{JConstants, JMemberHead, JTypeHead};
use java_statement_grammar::{JForHead, JLock, JSimple, JSwitchLabel};
use java_tree::{JExpr, JTypedParam, Position};
use sqlite_items::{Boxed, Items};

/// What stands between the braces of a `Span`: the statements of a lambda's block, or the members of an anonymous class.
#[cycle(units)]
#[derive(Drop)]
pub enum JBody {
    Statements(Items<JStatement>),
    Members(Items<JMember>),
}

/// A label of a switch, and the bodies of its expression.
#[cycle(units)]
#[derive(Drop)]
pub struct JCase {
    pub label: JSwitchLabel,
    pub bodies: Items<JBody>,
}

/// Labels that stand together, and the statements behind them (JLS 14.11).
#[cycle(units)]
#[derive(Drop)]
pub struct JCaseGroup {
    pub labels: Items<JCase>,
    pub statements: Items<JStatement>,
}

/// `catch`, `(`, what is caught, `)`, `{`, the statements, `}` (JLS 14.20).
#[cycle(units)]
#[derive(Drop)]
pub struct JCatch {
    pub at: Position,
    pub opens: Position,
    pub caught: JTypedParam,
    pub closes: Position,
    pub left: Position,
    pub statements: Items<JStatement>,
    pub right: Position,
}

/// A statement (JLS 14).
#[cycle(units)]
#[derive(Drop)]
pub enum JStatement {
    /// What stands before the `;`, its bodies, the `;`.
    Simple(JSimple, Items<JBody>, Position),
    /// `{`, the statements, `}`.
    Block(Position, Items<JStatement>, Position),
    /// The label, `:`, the statement.
    Labeled(Name, Position, Position, Boxed<JStatement>),
    /// `if`, `(`, the condition, its bodies, `)`, the statement.
    If(Position, Position, JExpr, Items<JBody>, Position, Boxed<JStatement>),
    /// `if`, `(`, the condition, its bodies, `)`, the statement, `else`, the other.
    IfElse(
        Position,
        Position,
        JExpr,
        Items<JBody>,
        Position,
        Boxed<JStatement>,
        Position,
        Boxed<JStatement>,
    ),
    /// `while`, `(`, the condition, its bodies, `)`, the statement.
    While(Position, Position, JExpr, Items<JBody>, Position, Boxed<JStatement>),
    /// `do`, the statement, `while`, `(`, the condition, its bodies, `)`, `;`.
    Do(Position, Boxed<JStatement>, Position, Position, JExpr, Items<JBody>, Position, Position),
    /// `for`, `(`, what stands in the parentheses, its bodies, `)`, the statement.
    For(Position, Position, JForHead, Items<JBody>, Position, Boxed<JStatement>),
    /// `switch`, `(`, the subject, its bodies, `)`, `{`, the groups, `}`.
    Switch(
        Position,
        Position,
        JExpr,
        Items<JBody>,
        Position,
        Position,
        Items<JCaseGroup>,
        Position,
    ),
    /// `synchronized`, `(`, the lock, its bodies, `)`, `{`, the statements, `}`.
    Synchronized(
        Position,
        Position,
        JLock,
        Items<JBody>,
        Position,
        Position,
        Items<JStatement>,
        Position,
    ),
    /// `try`, `{`, the statements, `}`, the catches.
    Try(Position, Position, Items<JStatement>, Position, Items<JCatch>),
    /// `try`, `{`, the statements, `}`, the catches, `finally`, `{`, the statements, `}`.
    TryFinally(
        Position,
        Position,
        Items<JStatement>,
        Position,
        Items<JCatch>,
        Position,
        Position,
        Items<JStatement>,
        Position,
    ),
}

/// A member of a type (JLS 8.1.6, 9.1.4).
#[cycle(units)]
#[derive(Drop)]
pub enum JMember {
    /// What stands before the `;`, its bodies, the `;`.
    Declared(JMemberHead, Items<JBody>, Position),
    /// What stands before the block, `{`, the statements, `}`.
    Bodied(JMemberHead, Position, Items<JStatement>, Position),
    /// What stands before the body of a type, `{`, the constants of an enum with the bodies of their arguments, the
    /// members, `}`.
    Type(JTypeHead, Position, Option<JConstants>, Items<JBody>, Items<JMember>, Position),
}

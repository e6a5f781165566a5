// What statements hold besides other statements.

use crate::JDeclaration;
use j2k_base::Name;
use java_tree::{JExpr, JQualified, JType, Position};
use sqlite_items::Items;

/// The name of a label.
#[derive(Drop)]
pub struct JLabelName {
    pub name: Name,
    pub at: Position,
}

/// What stands before the `;` of a statement that holds no other.
#[derive(Drop)]
pub enum JSimple {
    /// Nothing (JLS 14.6).
    Empty,
    Declaration(JDeclaration),
    /// An assignment, `++` or `--`, a call or the creation of an object (JLS 14.8).
    Expression(JExpr),
    /// `break`, and the label where one stands (JLS 14.15).
    Break(Position, Option<JLabelName>),
    /// `continue`, and the label where one stands (JLS 14.16).
    Continue(Position, Option<JLabelName>),
    /// `return`, and the value where one stands (JLS 14.17).
    Return(Position, Option<JExpr>),
    /// `throw` and the value (JLS 14.18).
    Throw(Position, JExpr),
    /// `this`, `(`, the arguments, the commas between them, `)` (JLS 8.8.7.1).
    ThisCall(Position, Position, Items<JExpr>, Items<Position>, Position),
    /// `super`, `(`, the arguments, the commas between them, `)` (JLS 8.8.7.1).
    SuperCall(Position, Position, Items<JExpr>, Items<Position>, Position),
}

/// How a basic `for` begins (JLS 14.14.1): a declaration, or expressions with commas between them, which may be none.
#[derive(Drop)]
pub enum JForStart {
    Declaration(JDeclaration),
    Expressions(Items<JExpr>, Items<Position>),
}

/// What stands in the parentheses of a `for`.
#[derive(Drop)]
pub enum JForHead {
    /// The beginning, `;`, the condition where one stands, `;`, the updates, the commas between them (JLS 14.14.1).
    Basic(JForStart, Position, Option<JExpr>, Position, Items<JExpr>, Items<Position>),
    /// `final` where it stands, the type, the name, `:`, what is walked through (JLS 14.14.2).
    Each(Option<Position>, JType, Name, Position, Position, JExpr),
}

/// What stands in the parentheses of a synchronized statement (JLS 14.19): an expression, or the name of a class, a dot
/// and `class` (JLS 15.8.2).
#[derive(Drop)]
pub enum JLock {
    Expression(JExpr),
    Class(JQualified, Position, Position),
}

/// A label of a switch (JLS 14.11): `case`, the value, `:`, or `default` and `:`.
#[derive(Drop)]
pub enum JSwitchLabel {
    Case(Position, JExpr, Position),
    Default(Position, Position),
}

// What is still to be written of a unit.

use java_expr_printer::Written;
use java_unit_grammar::{JBody, JCase, JCaseGroup, JCatch, JMember, JStatement};
use sqlite_items::{Boxed, Items};

/// Lets a value go. As a call it costs the proof of the one who calls nothing.
pub fn let_go<T: Drop>(_value: T) {}

/// A part that is still to be written. The tokens of a text stand from the last to the first, with the bodies of those
/// of them that have one.
#[derive(Drop)]
pub enum Work<'a> {
    Token(Written),
    Text(Vec<Written>, &'a [JBody]),
    Statement(&'a Boxed<JStatement>),
    /// Statements from one of the number on.
    Statements(&'a Items<JStatement>, usize),
    Members(&'a [JMember]),
    Groups(&'a [JCaseGroup]),
    Cases(&'a [JCase]),
    Catches(&'a [JCatch]),
}

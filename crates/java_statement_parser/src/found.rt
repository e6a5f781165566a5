//! What the readers have found.

use java_tree::{JExpr, Position};
use sqlite_items::Boxed;

/// The condition of a basic `for`, and the `;` before and behind it.
#[derive(Drop)]
pub struct TestsFound {
    pub first: Position,
    pub test: Option<Boxed<JExpr>>,
    pub second: Position,
}

// Declarations of variables.

use j2k_base::Name;
use java_tree::{JExpr, JType, Position};
use sqlite_items::Items;

/// `=` and the value behind it, which may stand in braces (JLS 10.6).
#[derive(Drop)]
pub struct JValue {
    pub at: Position,
    pub tree: JExpr,
}

/// A declared name, and its value where it has one (JLS 14.4).
#[derive(Drop)]
pub struct JDeclarator {
    pub name: Name,
    pub at: Position,
    pub value: Option<JValue>,
}

/// `final` where it stands, the type, the names, the commas between them (JLS 8.3, 14.4).
#[derive(Drop)]
pub struct JDeclaration {
    pub is_final: Option<Position>,
    pub kind: JType,
    pub names: Items<JDeclarator>,
    pub commas: Items<Position>,
}

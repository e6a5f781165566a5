// What the heads of types and members are made of.

use j2k_base::Name;
use java_tree::{JType, JTypedParam, Position};
use sqlite_items::Items;

/// `extends` and a type.
#[derive(Drop)]
pub struct JBound {
    pub at: Position,
    pub kind: JType,
}

/// A type parameter: its name, and its bound where one stands (JLS 4.4).
#[derive(Drop)]
pub struct JTypeParam {
    pub name: Name,
    pub at: Position,
    pub bound: Option<JBound>,
}

/// Type parameters: `<`, the parameters, the commas between them, and the `>`: whether another `>` or a `=` stands
/// directly behind it, and its position.
#[derive(Drop)]
pub struct JTypeParams {
    pub opens: Position,
    pub items: Items<JTypeParam>,
    pub commas: Items<Position>,
    pub is_joined: bool,
    pub closes: Position,
}

/// Formal parameters, which may be none: `(`, the parameters, the commas between them, `)` (JLS 8.4.1).
#[derive(Drop)]
pub struct JFormals {
    pub opens: Position,
    pub items: Items<JTypedParam>,
    pub commas: Items<Position>,
    pub closes: Position,
}

/// A word (`extends`, `implements` or `throws`), the types behind it, the commas between them.
#[derive(Drop)]
pub struct JTypeList {
    pub at: Position,
    pub items: Items<JType>,
    pub commas: Items<Position>,
}

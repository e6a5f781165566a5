// The constants of an enum, and the lines of packages and imports.

use j2k_base::Name;
use java_tree::{JExpr, JQualified, Position};
use sqlite_items::Items;

/// `(`, the arguments, the commas between them, `)`.
#[derive(Drop)]
pub struct JArguments {
    pub opens: Position,
    pub items: Items<JExpr>,
    pub commas: Items<Position>,
    pub closes: Position,
}

/// A constant of an enum: its name, and its arguments where they stand (JLS 8.9.1).
#[derive(Drop)]
pub struct JConstant {
    pub name: Name,
    pub at: Position,
    pub arguments: Option<JArguments>,
}

/// The constants of an enum, the commas between them, one more where it stands, and the `;` behind them where it stands.
#[derive(Drop)]
pub struct JConstants {
    pub items: Items<JConstant>,
    pub commas: Items<Position>,
    pub more: Option<Position>,
    pub end: Option<Position>,
}

/// `package`, the name, `;` (JLS 7.4).
#[derive(Drop)]
pub struct JPackage {
    pub at: Position,
    pub name: JQualified,
    pub end: Position,
}

/// A dot and a `*`.
#[derive(Clone, Copy, Debug, PartialEq, Eq)]
pub struct JStar {
    pub dot: Position,
    pub at: Position,
}

/// `import`, the name, `.*` where it stands, `;` (JLS 7.5).
#[derive(Drop)]
pub struct JImport {
    pub at: Position,
    pub name: JQualified,
    pub star: Option<JStar>,
    pub end: Position,
}

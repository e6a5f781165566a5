// Modifiers.

use java_tree::Position;

/// A modifier (JLS 8.1.1, 8.3.1, 8.4.3, 9.4). `@Override` holds the position of its name (JLS 9.6.4.4).
#[derive(Clone, Copy, Debug, PartialEq, Eq)]
pub enum ModifierKind {
    Public,
    Protected,
    Private,
    Abstract,
    Static,
    Final,
    Synchronized,
    Volatile,
    Default,
    Override(Position),
}

/// A modifier, and where it stands.
#[derive(Clone, Copy, Debug, PartialEq, Eq)]
pub struct JModifier {
    pub kind: ModifierKind,
    pub at: Position,
}

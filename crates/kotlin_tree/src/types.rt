// Names and types as they are written.

use crate::{Brackets, Position};
use j2k_base::Name;
use sqlite_items::Items;

/// An identifier, without the backticks that may stand around it (Kotlin, "Identifiers").
#[derive(Drop)]
pub struct KName {
    pub name: Name,
    pub at: Position,
}

/// A dot and the identifier behind it.
#[derive(Drop)]
pub struct KDotted {
    pub dot: Position,
    pub name: KName,
}

/// An identifier, and those behind it with dots (Kotlin, "Packages and imports").
#[derive(Drop)]
pub struct KQualified {
    pub first: KName,
    pub rest: Items<KDotted>,
}

/// A type (Kotlin, "Type references").
#[cycle(types)]
#[derive(Drop)]
pub enum KType {
    /// A name, and the `?` where one stands.
    Plain {
        name: KQualified,
        question: Option<Position>,
        /// Whether the name is that of a type variable; in a tree that was read it is false.
        variable: bool,
    },
    /// A name, `<`, the arguments, the commas between them, `>`, and the `?` where one stands.
    Applied {
        name: KQualified,
        angles: Brackets,
        arguments: Items<KType>,
        commas: Items<Position>,
        question: Option<Position>,
    },
}

/// `<`, types, the commas between them, `>`.
#[derive(Drop)]
pub struct KTypeArguments {
    pub angles: Brackets,
    pub items: Items<KType>,
    pub commas: Items<Position>,
}

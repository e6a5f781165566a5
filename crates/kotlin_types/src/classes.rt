// What is declared of classes that subtyping reads.

use crate::KKind;
use sqlite_items::Items;

/// What the head of a class says: the bound of each type parameter, `Any?` where none is written, and the direct
/// supertypes, written with the class's own type parameters, the superclass first. What names none has `Any` here.
#[derive(Drop)]
pub struct KClassHead {
    pub bounds: Items<KKind>,
    pub supers: Items<KKind>,
}

/// The heads of the library's classes and of the project's, by their numbers.
#[derive(Drop)]
pub struct KClasses {
    pub library: Items<KClassHead>,
    pub project: Items<KClassHead>,
    /// No walk up the supertypes takes more steps.
    pub steps: u32,
}

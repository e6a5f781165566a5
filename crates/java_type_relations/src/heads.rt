// What is declared of classes that subtyping reads.

use java_typed::TTypes;
use sqlite_items::Items;

/// Whether a class can have subclasses, and whether it is an interface.
#[derive(Clone, Copy)]
pub enum ClassForm {
    Class,
    Final,
    Interface,
}

/// The head of a class.
#[derive(Drop)]
pub struct Head {
    pub form: ClassForm,
    /// The bound of each type parameter, Object where none is written (JLS 4.4).
    pub bounds: TTypes,
    /// Its direct supertypes, written with its own type parameters, the superclass first. An interface without
    /// superinterfaces has Object here (JLS 4.10.2).
    pub supers: TTypes,
}

/// The heads of the library's classes and of the project's, by their numbers.
#[derive(Drop)]
pub struct Heads {
    pub library: Items<Head>,
    pub project: Items<Head>,
    /// No walk up the supertypes takes more steps.
    pub steps: u32,
}

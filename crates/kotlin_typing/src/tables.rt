// What a text may name besides its variables.

use crate::KStore;
use j2k_base::Name;
use kotlin_types::{KClassRef, KClasses, KKind};
use sqlite_items::Items;

/// Of what something is a member.
#[derive(Drop)]
pub enum KHolder {
    /// Of the values of a class.
    Instance(KClassRef),
    /// Of a class's companion.
    Companion(KClassRef),
    /// It is a constructor of a class.
    Constructor(KClassRef),
    /// Of what a name with dots means; where there is none, it is named alone.
    Path(Items<Name>),
}

/// A function or a constructor, with the type parameters of its class.
#[derive(Drop)]
pub struct KCallable {
    pub holder: KHolder,
    pub name: Name,
    pub params: Items<KKind>,
    pub result: KKind,
    pub is_private: bool,
}

/// A property.
#[derive(Drop)]
pub struct KProperty {
    pub holder: KHolder,
    pub name: Name,
    pub kind: KKind,
    pub store: KStore,
    pub is_private: bool,
    /// Whether it has `private set`.
    pub is_privately_set: bool,
}

/// A class that may be named: by its simple name, or by one with dots.
#[derive(Drop)]
pub struct KClassName {
    pub path: Items<Name>,
    pub class: KClassRef,
}

/// A type parameter of the class in which a text stands.
#[derive(Drop)]
pub struct KTypeVariable {
    pub name: Name,
    pub class: KClassRef,
    pub place: u8,
}

/// A `fun interface`: the types of the parameters of its one abstract method, and of its result.
#[derive(Drop)]
pub struct KFace {
    pub class: KClassRef,
    pub params: Items<KKind>,
    pub result: KKind,
}

/// What the text of a class may name.
#[derive(Drop)]
pub struct KTables {
    pub classes: KClasses,
    pub names: Items<KClassName>,
    pub variables: Items<KTypeVariable>,
    pub callables: Items<KCallable>,
    pub properties: Items<KProperty>,
    pub faces: Items<KFace>,
    /// The classes of which no instance is made: abstract ones and interfaces.
    pub abstracts: Items<KClassRef>,
}

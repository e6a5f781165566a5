// What is in scope at a place of a body.

use j2k_base::{Name, Text};
use kotlin_types::{KClassRef, KKind};
use sqlite_items::Items;

/// How often a variable may be stored to.
#[derive(Clone, Copy)]
pub enum KStore {
    /// It has its value from its declaration: a `val` with a value, a parameter, the variable of a loop or a catch.
    Fixed,
    /// A `val` without a value at its declaration.
    Once,
    /// A `var`.
    Free,
}

/// A variable of a body. A local may bear the name of a parameter; the variables of a loop, a catch and a lambda count as
/// parameters.
#[derive(Drop)]
pub struct KLocal {
    pub name: Name,
    pub kind: KKind,
    pub store: KStore,
    pub is_parameter: bool,
}

/// What a jump meets on its way out.
#[derive(Drop)]
pub enum KAround {
    /// A loop, and its label where one stands.
    Loop(Option<Name>),
    /// The block of a `run`.
    Run,
    /// The body of a lambda, and the name of its interface.
    Lambda(Name),
    /// The block of a `synchronized`.
    Lock,
}

/// What `return` gives.
#[derive(Drop)]
pub enum KReturns {
    /// There is nothing to return from, as in an initializer.
    Nowhere,
    /// It gives no value.
    NoValue,
    Value(KKind),
}

/// The part of a class in which a text stands.
#[derive(Clone, Copy)]
pub enum KPart {
    Function,
    Constructor,
    /// A property's value or an `init` block.
    Initializer,
    /// A function of the companion.
    Companion,
    /// A property's value or an `init` block of the companion.
    CompanionInitializer,
}

/// What is in scope at a place: the file's path; the variables, the nearest last; what is around, the nearest last; what
/// `return` gives; the class, and the part of it.
#[derive(Drop)]
pub struct KScope {
    pub path: Text,
    pub locals: Items<KLocal>,
    pub around: Items<KAround>,
    pub returns: KReturns,
    pub own: KClassRef,
    pub part: KPart,
}

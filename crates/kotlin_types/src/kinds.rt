// Types as values.

use j2k_base::Kind;
use sqlite_items::Items;

/// A class or an interface: of the library, by its number in the table; of the project, by its place.
#[derive(Clone, Copy)]
pub enum KClassRef {
    Library(u8),
    Project(u32),
}

/// What stands before the arguments of a type (Kotlin specification, "Built-in types", "Classifier types").
#[derive(Clone, Copy)]
pub enum KHead {
    /// `Nothing`, which no value has: the type of `null` is `Nothing?`.
    Nothing,
    /// `Unit`, the result of what gives no value.
    Unit,
    Class(KClassRef),
    /// `Array`, whose one argument is the type of its elements.
    Array,
    /// `BooleanArray`
    Booleans,
    /// `IntArray` and the like.
    Numbers(Kind),
    /// A type parameter of a class, by its place.
    Variable(KClassRef, u8),
}

/// What a type says of null (Kotlin specification, "Nullable types", "Definitely non-nullable types"). What stands first
/// takes less.
#[derive(Clone, Copy)]
pub enum Nullability {
    /// No value of the type is null: `C`, and `T & Any` of a type parameter `T`.
    Never,
    /// A type parameter without a mark: null is a value of it where it is one of its argument.
    Parameter,
    /// `?`
    Also,
}

/// A type: its head, its arguments, and what it says of null.
#[cycle(kinds)]
#[derive(Drop)]
pub struct KKind {
    pub head: KHead,
    pub arguments: Items<KKind>,
    pub nullability: Nullability,
}

// Types.

use j2k_base::Kind;
use java_tree::Position;
use sqlite_items::{Boxed, Items};

/// A class or an interface: of the library by the number of its row, or of the project by its place among the classes of all
/// units in their order.
#[derive(Clone, Copy, PartialEq, Eq)]
pub enum ClassRef {
    Library(u8),
    Project(u32),
}

/// A type of an expression or of a variable (JLS 4).
#[derive(Drop)]
pub enum TType {
    /// An integer type (JLS 4.2.1).
    Number(Kind),
    Boolean,
    /// The type of `null` (JLS 4.1).
    Null,
    /// A class or an interface with its type arguments, none where it has no parameters (JLS 4.5).
    Class(ClassRef, Items<TType>),
    /// A type parameter, by the class that declares it and its place there (JLS 4.4).
    Variable(ClassRef, u32),
    /// An array, by the type of its elements (JLS 10.1).
    Array(Boxed<TType>),
}

pub type TTypes = Items<TType>;

/// A result of a method (JLS 8.4.5).
#[derive(Drop)]
pub enum TResult {
    Void,
    Value(TType),
}

/// A type that stands in the text, or that `<>` or an untyped parameter of a lambda stands for: the type, and of each
/// reference type in it, from the outside to the inside and from left to right, where it is named: the last identifier of
/// its name, or the `[` of its dimension. None where nothing is written.
#[derive(Drop)]
pub struct TWritten {
    pub kind: TType,
    pub places: Items<Position>,
}

/// A type with its parts where they stand, so that a decision on it copies nothing.
#[derive(Clone, Copy)]
pub enum TypeView<'a> {
    Number(Kind),
    Boolean,
    Null,
    Class(ClassRef, &'a [TType]),
    Variable(ClassRef, u32),
    Array(&'a TType),
}

/// A result with its parts where they stand.
#[derive(Clone, Copy)]
pub enum ResultView<'a> {
    Void,
    Value(TypeView<'a>),
}

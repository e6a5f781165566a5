// What the library's table says of a class and of a member.

use j2k_base::Kind;

/// A class of the library.
#[derive(Clone, Copy, Debug)]
pub struct ClassRow {
    /// Its place among the classes.
    pub number: u8,
    pub package: &'static str,
    pub kotlin: &'static str,
    /// How many type parameters it has.
    pub params: u8,
    /// The number of the class, or of the interface, that stands next above it in the table. Only Object has none.
    pub above: Option<u8>,
}

/// A constructor, method or constant of a class of the library.
#[derive(Clone, Copy, Debug)]
pub struct MemberRow {
    /// Its name: of a constructor the class's simple name, of a member of `System` the name with its dot, as `out.print`.
    pub java: &'static str,
    /// What Kotlin writes for its name, with the class where the form has one. Empty for `Receiver` and `Barred`.
    pub kotlin: &'static str,
    pub form: Form,
    pub params: &'static [LibType],
    pub result: LibType,
    /// The number of the checked exception that it declares.
    pub throws: Option<u8>,
}

/// What Kotlin writes for a call or a read of a member, whose receiver is `e` and whose arguments are `a`.
#[derive(Clone, Copy, Debug, PartialEq, Eq)]
pub enum Form {
    /// `X(a)`
    Create,
    /// `e.m(a)`
    Method,
    /// `e.p`
    Property,
    /// `q.m(a)`
    Static,
    /// `q.C`
    Constant,
    /// `e`
    Receiver,
    /// `m(a)`
    Function,
    /// The read of `System.in`.
    Input,
    /// Nothing: the member isn't taken where it is chosen.
    Barred,
}

/// The type of a parameter or a result, and what it says of null.
#[derive(Clone, Copy, Debug, PartialEq, Eq)]
pub struct LibType {
    pub kind: LibKind,
    pub mark: Mark,
}

#[derive(Clone, Copy, Debug, PartialEq, Eq)]
pub enum LibKind {
    Void,
    Boolean,
    Number(Kind),
    /// A class of the library, by its number.
    Object(u8),
    /// A type parameter of the class, by its place.
    Variable(u8),
    /// `char[]`
    Chars,
}

#[derive(Clone, Copy, Debug, PartialEq, Eq)]
pub enum Mark {
    /// A result that isn't null, or a type that can't be.
    Plain,
    /// An argument or a result that may be null.
    MayBeNull,
    /// An argument whose null raises NullPointerException.
    Checked,
    /// An argument that must not be null.
    NotNull,
}

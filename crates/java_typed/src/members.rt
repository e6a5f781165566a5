// Members by their declarations, and modifiers.

use crate::ClassRef;

/// A field, a method or a constructor: the class that declares it, and its place among the fields, the methods or the
/// constructors there; of a class of the library its place among the rows of the class.
#[derive(Clone, Copy, PartialEq, Eq)]
pub struct MemberRef {
    pub class: ClassRef,
    pub place: u32,
}

/// Who may use a member (JLS 6.6).
#[derive(Clone, Copy, PartialEq, Eq)]
pub enum Access {
    Public,
    Protected,
    Package,
    Private,
}

/// The modifiers of a class or a member, those included that its place gives it, as `static` of a constant of an enum.
#[derive(Clone, Copy)]
pub struct TModifiers {
    pub access: Access,
    pub is_static: bool,
    pub is_final: bool,
    pub is_abstract: bool,
    pub is_synchronized: bool,
    pub is_volatile: bool,
}

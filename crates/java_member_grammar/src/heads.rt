// The heads of members and types.

use crate::{JBound, JFormals, JModifier, JTypeList, JTypeParams};
use j2k_base::Name;
use java_statement_grammar::JDeclaration;
use java_tree::{JType, Position};
use sqlite_items::Items;

/// The result of a method: `void`, or a type (JLS 8.4.5).
#[derive(Drop)]
pub enum JResult {
    Void(Position),
    Type(JType),
}

/// What stands of a member before its `;` or its block.
#[derive(Drop)]
pub enum JMemberHead {
    /// Nothing, before a `;`.
    Empty,
    /// The modifiers, and the type and the names; its `final` is a modifier (JLS 8.3).
    Field(Items<JModifier>, JDeclaration),
    /// The modifiers, the type parameters where they stand, the result, the name, the parameters, `throws` where it
    /// stands (JLS 8.4).
    Method(
        Items<JModifier>,
        Option<JTypeParams>,
        JResult,
        Name,
        Position,
        JFormals,
        Option<JTypeList>,
    ),
    /// The modifiers, the name of the class, the parameters, `throws` where it stands (JLS 8.8).
    Constructor(Items<JModifier>, Name, Position, JFormals, Option<JTypeList>),
    /// `static` where it stands, before a block (JLS 8.6, 8.7).
    Initializer(Option<Position>),
}

/// What stands of a type before its body.
#[derive(Drop)]
pub enum JTypeHead {
    /// The modifiers, `class`, the name, the type parameters, `extends` and `implements` where they stand (JLS 8.1).
    Class(
        Items<JModifier>,
        Position,
        Name,
        Position,
        Option<JTypeParams>,
        Option<JBound>,
        Option<JTypeList>,
    ),
    /// The modifiers, `interface`, the name, the type parameters, `extends` where they stand (JLS 9.1).
    Interface(Items<JModifier>, Position, Name, Position, Option<JTypeParams>, Option<JTypeList>),
    /// The modifiers, `enum`, the name, `implements` where it stands (JLS 8.9).
    Enum(Items<JModifier>, Position, Name, Position, Option<JTypeList>),
}

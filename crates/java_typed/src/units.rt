// Members, classes and units.

use crate::{MemberRef, TBody, TExpr, TModifiers, TStatement, TType, TWritten};
use j2k_base::{Name, Series, Text};
use java_tree::{Comments, Position};
use sqlite_items::Items;

/// A type parameter (JLS 4.4).
#[derive(Drop)]
pub struct TTypeParam {
    pub name: Name,
    pub at: Position,
    pub bound: Option<TWritten>,
}

/// A parameter of a method or a constructor (JLS 8.4.1).
#[derive(Drop)]
pub struct TParam {
    pub name: Name,
    pub at: Position,
    pub kind: TWritten,
    pub is_final: bool,
}

/// A field (JLS 8.3). A constant of an enum is one, whose value creates it (JLS 8.9.3).
#[derive(Drop)]
pub struct TField {
    pub first: Position,
    pub name: Name,
    pub at: Position,
    pub modifiers: TModifiers,
    pub is_enum_constant: bool,
    pub kind: TWritten,
}

/// The statements of a method or a constructor, and its closing brace.
#[derive(Drop)]
pub struct TBlock {
    pub statements: Items<TStatement>,
    pub closes: Position,
}

/// A method (JLS 8.4, 9.4). Without a result it is void, and without a block abstract.
#[derive(Drop)]
pub struct TMethod {
    pub first: Position,
    pub name: Name,
    pub at: Position,
    pub modifiers: TModifiers,
    pub type_params: Items<TTypeParam>,
    pub params: Items<TParam>,
    pub result: Option<TWritten>,
    pub throws: Items<TType>,
    pub block: Option<TBlock>,
}

/// What a constructor does first (JLS 8.8.7): nothing where its class stands directly below Object, else it calls a
/// constructor of its own class or of the class above, with the arguments and their bodies. A call that isn't written
/// stands at the constructor's name.
#[derive(Drop)]
pub enum TFirstCall {
    Nothing,
    This {
        at: Position,
        member: MemberRef,
        arguments: Items<TExpr>,
        bodies: Items<TBody>,
    },
    Super {
        at: Position,
        is_written: bool,
        member: MemberRef,
        arguments: Items<TExpr>,
        bodies: Items<TBody>,
    },
}

/// A constructor (JLS 8.8). One that isn't written stands at the name of its class (JLS 8.8.9).
#[derive(Drop)]
pub struct TConstructor {
    pub first: Position,
    pub at: Position,
    pub is_written: bool,
    pub modifiers: TModifiers,
    pub params: Items<TParam>,
    pub throws: Items<TType>,
    pub call: TFirstCall,
    pub block: TBlock,
}

/// What is done when a class or an object is made (JLS 8.3.2, 8.6, 8.7): the value of a field, by the field's place, or a
/// block.
#[derive(Drop)]
pub enum TInitializer {
    Value(u32, TExpr, Items<TBody>),
    Block {
        at: Position,
        is_static: bool,
        statements: Items<TStatement>,
    },
}

/// A member by its place among those of its sort, or a member type by its place among the classes of the unit.
#[derive(Clone, Copy, PartialEq, Eq)]
pub enum TMember {
    Field(u32),
    Method(u32),
    Constructor(u32),
    Initializer(u32),
    Type(u32),
}

#[derive(Clone, Copy, PartialEq, Eq)]
pub enum ClassSort {
    Class,
    Interface,
    Enum,
    Anonymous,
}

/// A class or an interface (JLS 8, 9): the place of the type around it among the classes of the unit, its members by sort, and
/// the order in which they are written. The initializers of both parts stand in one list in the order of the text. An anonymous
/// class holds the names of the locals around it that it uses.
#[derive(Drop)]
pub struct TClass {
    pub around: Option<u32>,
    pub first: Position,
    pub name: Name,
    pub at: Position,
    pub sort: ClassSort,
    pub modifiers: TModifiers,
    pub type_params: Items<TTypeParam>,
    pub above: Option<TType>,
    pub faces: Items<TType>,
    pub fields: Items<TField>,
    pub methods: Items<TMethod>,
    pub constructors: Items<TConstructor>,
    pub initializers: Items<TInitializer>,
    pub order: Items<TMember>,
    pub captured: Items<Name>,
}

/// A compilation unit (JLS 7.3): the path of the file, the parts of its package's name, all its classes in the order of
/// their first tokens, member types and anonymous classes among them, and its comments.
#[derive(Drop)]
pub struct TUnit {
    pub path: Text,
    pub package: Series<Name>,
    pub classes: Items<TClass>,
    pub comments: Comments,
}

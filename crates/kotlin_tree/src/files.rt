// Classes and files as they are written.

use crate::{Brackets, Comments, KMember, KModifier, KName, KQualified, KType, KTyped, Position};
use j2k_base::{Series, Text};
use sqlite_items::Items;

/// A type parameter: its name, and its bound where one stands.
#[derive(Drop)]
pub struct KTypeParam {
    pub name: KName,
    pub bound: Option<KTyped>,
}

/// `<`, the type parameters, the commas between them, `>`.
#[derive(Drop)]
pub struct KTypeParams {
    pub angles: Brackets,
    pub items: Items<KTypeParam>,
    pub commas: Items<Position>,
}

/// A supertype: the type, and `(` and `)` where the class above is called.
#[derive(Drop)]
pub struct KSuper {
    pub kind: KType,
    pub round: Option<Brackets>,
}

/// `:`, the supertypes, the commas between them.
#[derive(Drop)]
pub struct KSupers {
    pub colon: Position,
    pub items: Items<KSuper>,
    pub commas: Items<Position>,
}

/// The words of a class or an interface.
#[derive(Clone, Copy)]
pub enum KClassWord {
    Class,
    Interface,
    /// `fun class`, which is spelled and never well typed; it holds the place of `fun`.
    FunClass(Position),
    /// `fun interface`, which holds the place of `fun`.
    FunInterface(Position),
}

/// A class or an interface (Kotlin, "Class declaration"): the comments that are printed before it, of which one that was
/// read has none; the modifiers, the words, the name, the type parameters and supertypes where they stand, `{`, the
/// members, `}`.
#[derive(Drop)]
pub struct KClass {
    pub comments: Comments,
    pub modifiers: Items<KModifier>,
    pub word: KClassWord,
    pub at: Position,
    pub name: KName,
    pub params: Option<KTypeParams>,
    pub supers: Option<KSupers>,
    pub curly: Brackets,
    pub members: Items<KMember>,
}

/// `package` and the name (Kotlin, "Packages and imports").
#[derive(Drop)]
pub struct KPackage {
    pub at: Position,
    pub name: KQualified,
}

/// `import` and the name.
#[derive(Drop)]
pub struct KImport {
    pub at: Position,
    pub name: KQualified,
}

/// A file: its path, the package line where one stands, the imports, the classes.
#[derive(Drop)]
pub struct KFile {
    pub path: Text,
    pub package: Option<KPackage>,
    pub imports: Items<KImport>,
    pub classes: Items<KClass>,
}

/// The files of a project.
pub type KFiles = Series<KFile>;

// Members of classes and interfaces as they are written.

use crate::{Brackets, Comments, KBlock, KDeclared, KExpr, KName, KType, Position};
use sqlite_items::{Boxed, Items};

/// A modifier of a class or a member (Kotlin, "Modifiers"). The first four are annotations, which hold the place of
/// their name behind the `@`.
#[derive(Clone, Copy)]
pub enum KModifierKind {
    JvmStatic(Position),
    JvmField(Position),
    Synchronized(Position),
    Volatile(Position),
    Private,
    Abstract,
    Open,
    Override,
    Const,
}

/// A modifier, and where it stands.
#[derive(Clone, Copy)]
pub struct KModifier {
    pub kind: KModifierKind,
    pub at: Position,
}

/// A parameter: the name, `:`, the type.
#[derive(Drop)]
pub struct KParam {
    pub name: KName,
    pub colon: Position,
    pub kind: KType,
}

/// `(`, the parameters, the commas between them, `)`.
#[derive(Drop)]
pub struct KParams {
    pub round: Brackets,
    pub items: Items<KParam>,
    pub commas: Items<Position>,
}

/// `:` and a type: a function's result, or the bound of a type parameter.
#[derive(Drop)]
pub struct KTyped {
    pub colon: Position,
    pub kind: KType,
}

/// `=` and the value of a property.
#[derive(Drop)]
pub struct KValue {
    pub at: Position,
    pub tree: KExpr,
}

/// `private` and `set`.
#[derive(Clone, Copy)]
pub struct KPrivateSet {
    pub private: Position,
    pub set: Position,
}

/// The constructor that another one calls first: one of its own class, or one of the class above.
#[derive(Clone, Copy)]
pub enum KCalled {
    This,
    Super,
}

/// `:`, `this` or `super`, `(`, the arguments, the commas between them, `)`.
#[derive(Drop)]
pub struct KDelegation {
    pub colon: Position,
    pub called: KCalled,
    pub at: Position,
    pub round: Brackets,
    pub arguments: Items<KExpr>,
    pub commas: Items<Position>,
}

/// `companion`, `object`, `{` and `}`.
#[derive(Clone, Copy)]
pub struct KCompanionAt {
    pub companion: Position,
    pub object: Position,
    pub curly: Brackets,
}

/// A member (Kotlin, "Class declaration").
#[cycle(members)]
#[derive(Drop)]
pub enum KMember {
    /// A member with comments that are printed before it. What was read holds none.
    Commented(Comments, Boxed<KMember>),
    /// The modifiers, the declaration, the value where there is one, `private set` where it stands.
    Property {
        modifiers: Items<KModifier>,
        declared: KDeclared,
        value: Option<KValue>,
        setter: Option<KPrivateSet>,
    },
    /// `init` and the block.
    Init(Position, KBlock),
    /// The modifiers, `fun`, the name, the parameters, the result where one stands, the block where there is one.
    Function {
        modifiers: Items<KModifier>,
        at: Position,
        name: KName,
        params: KParams,
        result: Option<KTyped>,
        body: Option<KBlock>,
    },
    /// The modifiers, `constructor`, the parameters, what it calls first where it says so, the block.
    Constructor {
        modifiers: Items<KModifier>,
        at: Position,
        params: KParams,
        first: Option<KDelegation>,
        body: KBlock,
    },
    /// `companion`, `object`, `{`, the members, `}`.
    Companion(KCompanionAt, Items<KMember>),
}

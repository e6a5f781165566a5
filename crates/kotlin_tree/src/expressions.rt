// Expressions as they are written.

use crate::{Brackets, KName, KQualified, KStmt, KType, KTypeArguments, Position};
use j2k_base::Units;
use sqlite_items::{Boxed, Items};

/// A literal (Kotlin, "Literals").
#[derive(Drop)]
pub enum KLiteral {
    /// Decimal digits, an `Int`.
    Integer(u32),
    /// Decimal digits and `L`.
    Long(u64),
    /// A 16-bit unit.
    Character(u16),
    Text(Units),
    True,
    False,
    Null,
}

/// An operator before its operand (Kotlin, "Prefix expressions").
#[derive(Clone, Copy)]
pub enum KPrefix {
    Plus,
    Minus,
    Not,
    Increment,
    Decrement,
}

/// An operator behind its operand (Kotlin, "Postfix expressions").
#[derive(Clone, Copy)]
pub enum KPostfix {
    /// `!!`
    NotNull,
    Increment,
    Decrement,
}

/// An operator between its operands (Kotlin, "Expressions"). Six of them are words.
#[derive(Clone, Copy)]
pub enum KBinary {
    OrElse,
    AndAlso,
    Equal,
    NotEqual,
    /// `===`
    Same,
    /// `!==`
    NotSame,
    Less,
    Greater,
    LessEqual,
    GreaterEqual,
    /// `shl`
    ShiftLeft,
    /// `shr`
    ShiftRight,
    /// `ushr`
    ShiftUnsigned,
    /// `and`
    BitAnd,
    /// `or`
    BitOr,
    /// `xor`
    BitXor,
    Add,
    Subtract,
    Multiply,
    Divide,
    Remainder,
}

/// A word, `(` and `)`.
#[derive(Clone, Copy)]
pub struct KHeadAt {
    pub word: Position,
    pub round: Brackets,
}

/// `else` and `->`.
#[derive(Clone, Copy)]
pub struct KElseAt {
    pub word: Position,
    pub arrow: Position,
}

/// `::`, `class`, `.` and `java`.
#[derive(Clone, Copy)]
pub struct KClassAt {
    pub colons: Position,
    pub word: Position,
    pub dot: Position,
    pub java: Position,
}

/// `super` and a dot.
#[derive(Clone, Copy)]
pub struct KSuperAt {
    pub word: Position,
    pub dot: Position,
}

/// What stands in the braces of a lambda before its statements: names with commas between them, which may be none, and
/// `->` where it stands; it may be left out where there are no names.
#[derive(Drop)]
pub struct KLambdaNames {
    pub items: Items<KName>,
    pub commas: Items<Position>,
    pub arrow: Option<Position>,
}

/// An alternative of a `when` that gives a value: its labels, the commas between them, `->`, the value.
#[cycle(code)]
#[derive(Drop)]
pub struct KChoice {
    pub labels: Items<KExpr>,
    pub commas: Items<Position>,
    pub arrow: Position,
    pub value: KExpr,
}

/// An expression (Kotlin, "Expressions").
#[cycle(code)]
#[derive(Drop)]
pub enum KExpr {
    Literal(KLiteral, Position),
    Name(KName),
    This(Position),
    /// `(`, the inner expression, `)`.
    Paren(Brackets, Boxed<KExpr>),
    /// The name, type arguments where they stand, `(`, the arguments, the commas between them, `)`.
    Call {
        name: KName,
        types: Option<KTypeArguments>,
        round: Brackets,
        arguments: Items<KExpr>,
        commas: Items<Position>,
    },
    /// `super`, the dot, the name, `(`, the arguments, the commas between them, `)`.
    SuperCall {
        at: KSuperAt,
        name: KName,
        round: Brackets,
        arguments: Items<KExpr>,
        commas: Items<Position>,
    },
    /// The object, the dot, the name.
    Field(Boxed<KExpr>, Position, KName),
    /// The object, the dot, the name, type arguments where they stand, `(`, the arguments, the commas between them, `)`.
    Method {
        object: Boxed<KExpr>,
        dot: Position,
        name: KName,
        types: Option<KTypeArguments>,
        round: Brackets,
        arguments: Items<KExpr>,
        commas: Items<Position>,
    },
    /// The array, `[`, the index, `]`.
    Element(Boxed<KExpr>, Brackets, Boxed<KExpr>),
    Postfix(Boxed<KExpr>, KPostfix, Position),
    Prefix(KPrefix, Position, Boxed<KExpr>),
    /// The value, `as`, the type.
    As(Boxed<KExpr>, Position, KType),
    /// The value, `is`, the type.
    Is(Boxed<KExpr>, Position, KType),
    Binary {
        left: Boxed<KExpr>,
        operator: KBinary,
        at: Position,
        right: Boxed<KExpr>,
    },
    /// `if`, `(`, the condition, `)`, the one value, `else`, the other.
    IfValue {
        at: KHeadAt,
        condition: Boxed<KExpr>,
        value: Boxed<KExpr>,
        else_at: Position,
        other: Boxed<KExpr>,
    },
    /// `when`, `(`, the subject, `)`, `{`, the alternatives, `else`, `->`, the other value, `}`.
    WhenValue {
        at: KHeadAt,
        subject: Boxed<KExpr>,
        curly: Brackets,
        choices: Items<KChoice>,
        else_at: KElseAt,
        other: Boxed<KExpr>,
    },
    /// The interface, `{`, the names of the parameters, the statements, `}`.
    Lambda {
        face: KType,
        curly: Brackets,
        names: KLambdaNames,
        statements: Items<KStmt>,
    },
    /// `run`, `{`, the statements, `}`.
    Run(Position, Brackets, Items<KStmt>),
    /// The name of a class, `::`, `class`, `.`, `java`.
    Class(KQualified, KClassAt),
}

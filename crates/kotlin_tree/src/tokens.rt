// The tokens of a Kotlin file.

use crate::Position;
use j2k_base::{Name, Series, Units};

/// A mark of the profile (Kotlin, "Lexical grammar"). `?.`, `?:`, `..` and `+=` are two marks each.
#[derive(Clone, Copy, Debug, PartialEq, Eq)]
pub enum Mark {
    /// `(`
    OpenRound,
    /// `)`
    CloseRound,
    /// `[`
    OpenSquare,
    /// `]`
    CloseSquare,
    /// `{`
    OpenCurly,
    /// `}`
    CloseCurly,
    Comma,
    Dot,
    At,
    Question,
    Colon,
    /// `::`
    DoubleColon,
    /// `=`
    Assign,
    /// `==`
    Equal,
    /// `===`
    Identical,
    /// `!`
    Not,
    /// `!!`
    NotNull,
    /// `!=`
    NotEqual,
    /// `!==`
    NotIdentical,
    Plus,
    /// `++`
    PlusPlus,
    Minus,
    /// `--`
    MinusMinus,
    /// `->`
    Arrow,
    Star,
    Slash,
    Percent,
    /// `&&`
    AndAnd,
    /// `||`
    OrOr,
    Less,
    /// `<=`
    LessEqual,
    Greater,
    /// `>=`
    GreaterEqual,
}

/// A word that is no name without backticks (Kotlin, "Hard keywords").
#[derive(Clone, Copy, Debug, PartialEq, Eq)]
pub enum Keyword {
    As,
    Break,
    Class,
    Continue,
    Do,
    Else,
    False,
    For,
    Fun,
    If,
    In,
    Interface,
    Is,
    Null,
    Object,
    Package,
    Return,
    Super,
    This,
    Throw,
    True,
    Try,
    Typealias,
    Typeof,
    Val,
    Var,
    When,
    While,
}

/// A word that means something of its own at some places and is a name elsewhere. In backticks it
/// is a name everywhere.
#[derive(Clone, Copy, Debug, PartialEq, Eq)]
pub enum Word {
    Abstract,
    And,
    Catch,
    Companion,
    Const,
    Constructor,
    Finally,
    Import,
    Init,
    Java,
    /// `JvmField`, behind an `@`.
    JvmField,
    /// `JvmStatic`, behind an `@`.
    JvmStatic,
    Open,
    Or,
    Override,
    Private,
    Run,
    Set,
    Shl,
    Shr,
    /// `synchronized`
    SynchronizedBlock,
    /// `Synchronized`, behind an `@`.
    SynchronizedMethod,
    Until,
    Ushr,
    /// `Volatile`, behind an `@`.
    Volatile,
    Xor,
}

/// What a token is, with the name or the value that it holds.
#[derive(Debug, Drop)]
pub enum TokenKind {
    Mark(Mark),
    Keyword(Keyword),
    /// A word that is also a name, without backticks.
    Word(Word),
    /// Any other identifier, or one in backticks, without these.
    Name(Name),
    /// An Int literal: 0 to 2,147,483,647.
    Integer(u32),
    /// A Long literal: 0 to 9,223,372,036,854,775,807.
    Long(u64),
    /// A character literal: its 16-bit unit.
    Character(u16),
    /// A String literal: the units of its value.
    Text(Units),
    /// The end of the file.
    End,
}

/// What stands before a token as far as it counts, white space and comments aside.
#[derive(Clone, Copy, Debug, PartialEq, Eq)]
pub enum Gap {
    /// Neither a line end nor a `;`.
    Plain,
    /// Line ends, and no `;`.
    Line,
    /// A `;`.
    Semicolon,
}

/// A token, what stands before it, and where its first character stands.
#[derive(Debug, Drop)]
pub struct KToken {
    pub kind: TokenKind,
    pub gap: Gap,
    pub position: Position,
}

/// The tokens of a file in their order. The last is the end of the file.
pub type KTokens = Series<KToken>;

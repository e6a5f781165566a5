// The tokens of a Java file.

use j2k_base::{Name, Series, Text, Units};

/// Where something stands in a raw file: the byte from 0, the line and the column from 1.
/// Lines end at LF, CR or CR LF, and a column counts bytes.
#[derive(Clone, Copy, Debug, PartialEq, Eq)]
pub struct Position {
    pub offset: u32,
    pub line: u32,
    pub column: u32,
}

/// A separator or an operator (JLS 3.11, 3.12). The operators that begin with `>` are no marks
/// of their own, but made of these.
#[derive(Clone, Copy, Debug, PartialEq, Eq)]
pub enum Mark {
    /// `(`
    OpenRound,
    /// `)`
    CloseRound,
    /// `{`
    OpenCurly,
    /// `}`
    CloseCurly,
    /// `[`
    OpenSquare,
    /// `]`
    CloseSquare,
    Semicolon,
    Comma,
    Dot,
    At,
    Question,
    Colon,
    Tilde,
    /// `=`
    Assign,
    /// `==`
    Equal,
    /// `!`
    Not,
    /// `!=`
    NotEqual,
    Plus,
    PlusPlus,
    /// `+=`
    PlusAssign,
    Minus,
    MinusMinus,
    /// `-=`
    MinusAssign,
    /// `->`
    Arrow,
    Star,
    /// `*=`
    StarAssign,
    Slash,
    /// `/=`
    SlashAssign,
    Percent,
    /// `%=`
    PercentAssign,
    And,
    AndAnd,
    /// `&=`
    AndAssign,
    Or,
    OrOr,
    /// `|=`
    OrAssign,
    /// `^`
    Hat,
    /// `^=`
    HatAssign,
    Less,
    LessEqual,
    /// `<<`
    ShiftLeft,
    /// `<<=`
    ShiftLeftAssign,
    /// `>` with neither `>` nor `=` directly behind it.
    Greater,
    /// `>` with `>` or `=` directly behind it, which may be joined to an operator with it.
    GreaterJoined,
}

/// A keyword of the profile, or `true`, `false` or `null` (JLS 3.9, 3.10.3, 3.10.7).
#[derive(Clone, Copy, Debug, PartialEq, Eq)]
pub enum Keyword {
    Abstract,
    Boolean,
    Break,
    Byte,
    Case,
    Catch,
    Char,
    Class,
    Continue,
    Default,
    Do,
    Else,
    Enum,
    Extends,
    False,
    Final,
    Finally,
    For,
    If,
    Implements,
    Import,
    Instanceof,
    Int,
    Interface,
    Long,
    New,
    Null,
    Package,
    Private,
    Protected,
    Public,
    Return,
    Short,
    Static,
    Super,
    Switch,
    Synchronized,
    This,
    Throw,
    Throws,
    True,
    Try,
    Void,
    Volatile,
    While,
}

/// What a token is, with the value of a literal.
#[derive(Debug, Drop)]
pub enum TokenKind {
    Mark(Mark),
    Keyword(Keyword),
    /// An identifier, with its escapes translated.
    Name(Name),
    /// An int literal: the 32 bits of its value.
    Integer(u32),
    /// Decimal 2147483648, which only the unary minus takes.
    LeastInteger,
    /// A long literal: the 64 bits of its value.
    Long(u64),
    /// Decimal 9223372036854775808L, which only the unary minus takes.
    LeastLong,
    /// A character literal: its 16-bit unit.
    Character(u16),
    /// A String literal: the units of its value.
    Text(Units),
}

/// A token, and where its first character stands.
#[derive(Debug, Drop)]
pub struct JToken {
    pub kind: TokenKind,
    pub position: Position,
}

/// The tokens of a file in their order.
pub type JTokens = Series<JToken>;

/// A comment: where it begins, and the byte of the raw file at which it ends. The end of the line
/// is no part of a `//` comment.
#[derive(Clone, Copy, Debug, PartialEq, Eq)]
pub struct Comment {
    pub position: Position,
    pub end: u32,
}

/// The comments of a file in their order.
pub type Comments = Series<Comment>;

/// What a file is made of.
#[derive(Debug, Drop)]
pub struct Tokens {
    pub path: Text,
    pub list: JTokens,
    pub comments: Comments,
}

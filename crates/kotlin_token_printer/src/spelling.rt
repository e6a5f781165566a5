// How tokens are spelled.

ghost use Rattle.std.specs.Prelude.{◌≡◌, ◌∷◌, [], ◌++◌, ◌<◌, ◌≤◌, OnOk};
ghost use Rattle.std.specs.List.{flat_map, list_all, list_any};
ghost use Rattle.kotlin_words.specs.Words.{contains_word};
ghost use Rattle.std.specs.Fmt.{decimal};
ghost use Rattle.kotlin_tree.specs.Spellings as s;
ghost use Rattle.kotlin_layout.specs.Names as n;

use j2k_base::{Name, NoMemory, Text};
use kotlin_tree::{KLiteral, Keyword, Mark, Word};
use kotlin_words::is_hard_keyword;
use std::alloc::Global;

/// The characters of a mark.
pub fn mark_text(mark: Mark) -> &'static str
    ensures { result.now ≡ s.mark_text mark }
{
    match mark {
        Mark::OpenRound => "(",
        Mark::CloseRound => ")",
        Mark::OpenSquare => "[",
        Mark::CloseSquare => "]",
        Mark::OpenCurly => "{",
        Mark::CloseCurly => "}",
        Mark::Comma => ",",
        Mark::Dot => ".",
        Mark::At => "@",
        Mark::Question => "?",
        Mark::Colon => ":",
        Mark::DoubleColon => "::",
        Mark::Assign => "=",
        Mark::Equal => "==",
        Mark::Identical => "===",
        Mark::Not => "!",
        Mark::NotNull => "!!",
        Mark::NotEqual => "!=",
        Mark::NotIdentical => "!==",
        Mark::Plus => "+",
        Mark::PlusPlus => "++",
        Mark::Minus => "-",
        Mark::MinusMinus => "--",
        Mark::Arrow => "->",
        Mark::Star => "*",
        Mark::Slash => "/",
        Mark::Percent => "%",
        Mark::AndAnd => "&&",
        Mark::OrOr => "||",
        Mark::Less => "<",
        Mark::LessEqual => "<=",
        Mark::Greater => ">",
        Mark::GreaterEqual => ">=",
    }
}

/// The characters of a keyword.
pub fn keyword_text(word: Keyword) -> &'static str
    ensures { result.now ≡ s.keyword_text word }
{
    match word {
        Keyword::As => "as",
        Keyword::Break => "break",
        Keyword::Class => "class",
        Keyword::Continue => "continue",
        Keyword::Do => "do",
        Keyword::Else => "else",
        Keyword::False => "false",
        Keyword::For => "for",
        Keyword::Fun => "fun",
        Keyword::If => "if",
        Keyword::In => "in",
        Keyword::Interface => "interface",
        Keyword::Is => "is",
        Keyword::Null => "null",
        Keyword::Object => "object",
        Keyword::Package => "package",
        Keyword::Return => "return",
        Keyword::Super => "super",
        Keyword::This => "this",
        Keyword::Throw => "throw",
        Keyword::True => "true",
        Keyword::Try => "try",
        Keyword::Typealias => "typealias",
        Keyword::Typeof => "typeof",
        Keyword::Val => "val",
        Keyword::Var => "var",
        Keyword::When => "when",
        Keyword::While => "while",
    }
}

/// The characters of a word that is also a name.
pub fn word_text(word: Word) -> &'static str
    ensures { result.now ≡ s.word_text word }
{
    match word {
        Word::Abstract => "abstract",
        Word::And => "and",
        Word::Catch => "catch",
        Word::Companion => "companion",
        Word::Const => "const",
        Word::Constructor => "constructor",
        Word::Finally => "finally",
        Word::Import => "import",
        Word::Init => "init",
        Word::Java => "java",
        Word::JvmField => "JvmField",
        Word::JvmStatic => "JvmStatic",
        Word::Open => "open",
        Word::Or => "or",
        Word::Override => "override",
        Word::Private => "private",
        Word::Run => "run",
        Word::Set => "set",
        Word::Shl => "shl",
        Word::Shr => "shr",
        Word::SynchronizedBlock => "synchronized",
        Word::SynchronizedMethod => "Synchronized",
        Word::Until => "until",
        Word::Ushr => "ushr",
        Word::Volatile => "Volatile",
        Word::Xor => "xor",
    }
}

fn is_past_ascii(byte: &u8) -> bool
    ensures { result ≡ n.is_past_ascii byte.now }
{
    *byte > 127
}

fn is_underscore(byte: &u8) -> bool
    ensures { result ≡ n.is_underscore byte.now }
{
    *byte == 95
}

fn is_other_keyword(name: &[u8]) -> bool
    ensures { result ≡ contains_word n.other_keywords name.now }
{
    name == b"catch".as_slice()
        || name == b"finally".as_slice()
        || name == b"synchronized".as_slice()
}

fn is_keyword(name: &[u8]) -> bool
    ensures { result ≡ n.is_keyword name.now }
{
    is_hard_keyword(name) || is_other_keyword(name)
}

fn has_past_ascii(name: &[u8]) -> bool
    ensures { result ≡ list_any n.is_past_ascii name.now }
{
    name.iter().any(is_past_ascii)
}

fn is_blank(name: &[u8]) -> bool
    ensures { result ≡ list_all n.is_underscore name.now }
{
    name.iter().all(is_underscore)
}

// Whether a name that is no keyword stands in backticks.
fn is_odd(name: &[u8]) -> bool
    ensures { result ≡ n.is_odd name.now }
{
    has_past_ascii(name) || is_blank(name)
}

// Whether a name stands in backticks.
fn is_quoted(name: &[u8]) -> bool
    ensures { result ≡ n.is_quoted name.now }
{
    is_keyword(name) || is_odd(name)
}

/// A name, in backticks where it needs them.
#[tactic(auto, unfolding(kotlin_layout::specs::Names::name_text))]
pub fn put_name(out: &mut Text, name: &Name) -> Result<(), NoMemory>
    ensures { OnOk result (out.new ≡ out.old ++ n.name_text name.now) }
{
    if is_quoted(name.as_bytes()) {
        out.push_str("`")?;
        out.push_str(name.as_str())?;
        out.push_str("`")
    } else {
        out.push_str(name.as_str())
    }
}

// An upper-case hexadecimal digit.
fn digit_text(digit: u16) -> &'static str
    requires { digit < 16 }
    ensures { result.now ≡ n.hex_digit digit ∷ [] }
{
    match digit {
        0 => "0",
        1 => "1",
        2 => "2",
        3 => "3",
        4 => "4",
        5 => "5",
        6 => "6",
        7 => "7",
        8 => "8",
        9 => "9",
        10 => "A",
        11 => "B",
        12 => "C",
        13 => "D",
        14 => "E",
        _ => "F",
    }
}

fn put_hex(out: &mut Text, unit: u16) -> Result<(), NoMemory>
    ensures { OnOk result (out.new ≡ out.old ++ n.hex_text unit) }
{
    put_digit(out, unit / 4096 % 16)?;
    put_digit(out, unit / 256 % 16)?;
    put_digit(out, unit / 16 % 16)?;
    put_digit(out, unit % 16)
}

fn put_digit(out: &mut Text, digit: u16) -> Result<(), NoMemory>
    requires { digit < 16 }
    ensures { OnOk result (out.new ≡ out.old ++ n.hex_digit digit ∷ []) }
{
    out.push_str(digit_text(digit))
}

// A unit that isn't printable.
fn put_control(out: &mut Text, unit: u16) -> Result<(), NoMemory>
    ensures { OnOk result (out.new ≡ out.old ++ n.control_text unit) }
{
    if unit == 9 {
        out.push_str("\\t")
    } else if unit == 8 {
        out.push_str("\\b")
    } else if unit == 10 {
        out.push_str("\\n")
    } else if unit == 13 {
        out.push_str("\\r")
    } else {
        out.push_str("\\u")?;
        put_hex(out, unit)
    }
}

// A printable unit, and whether a backslash stands before it.
fn put_printable(out: &mut Text, is_escaped: bool, unit: u16) -> Result<(), NoMemory>
    requires low { 32 ≤ unit }
    requires high { unit ≤ 126 }
    ensures { OnOk result (out.new ≡ out.old ++ n.printable_text is_escaped unit) }
{
    if is_escaped {
        out.push_str("\\")?;
    }
    out.push(char::from(unit as u8))
}

fn is_printable(unit: u16) -> bool
    ensures { result ≡ n.is_printable unit }
{
    32 <= unit && unit <= 126
}

fn is_escaped_in_character(unit: u16) -> bool
    ensures { result ≡ n.escaped_in_character unit }
{
    unit == 92 || unit == 39
}

fn is_escaped_in_string(unit: u16) -> bool
    ensures { result ≡ n.escaped_in_string unit }
{
    unit == 92 || unit == 34 || unit == 36
}

fn put_unit(out: &mut Text, is_escaped: bool, unit: u16) -> Result<(), NoMemory>
    ensures { OnOk result (out.new ≡ out.old ++ n.unit_text is_escaped unit) }
{
    if is_printable(unit) {
        put_printable(out, is_escaped, unit)
    } else {
        put_control(out, unit)
    }
}

fn put_units(out: &mut Text, units: &[u16]) -> Result<(), NoMemory>
    ensures { OnOk result (out.new ≡ out.old ++ flat_map n.string_unit_text units.now) }
{
    for unit in units {
        put_unit(out, is_escaped_in_string(*unit), *unit)?;
    }
    Ok(())
}

fn put_decimal(alloc: Global, out: &mut Text, number: u64) -> Result<(), NoMemory>
    ensures { OnOk result (out.new ≡ out.old ++ decimal number) }
{
    let digits = format!(in alloc; "{number}")?;
    out.push_str(digits.as_str())
}

/// A literal.
#[tactic(auto, unfolding(kotlin_layout::specs::Names::literal_text))]
pub fn put_literal(alloc: Global, out: &mut Text, literal: &KLiteral) -> Result<(), NoMemory>
    ensures { OnOk result (out.new ≡ out.old ++ n.literal_text literal.now) }
{
    match literal {
        KLiteral::Integer(number) => put_decimal(alloc, out, u64::from(*number)),
        KLiteral::Long(number) => {
            put_decimal(alloc, out, *number)?;
            out.push_str("L")
        }
        KLiteral::Character(unit) => {
            out.push_str("'")?;
            put_unit(out, is_escaped_in_character(*unit), *unit)?;
            out.push_str("'")
        }
        KLiteral::Text(units) => {
            out.push_str("\"")?;
            put_units(out, units.as_slice())?;
            out.push_str("\"")
        }
        KLiteral::True => out.push_str("true"),
        KLiteral::False => out.push_str("false"),
        KLiteral::Null => out.push_str("null"),
    }
}

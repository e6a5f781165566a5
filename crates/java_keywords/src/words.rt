// The words of Java that are no identifiers.

ghost use Rattle.std.specs.Prelude.{◌≡◌, ◌≢◌, ◌↔◌, IsTrue, IsNone, All, Some, map, filter};
ghost use Rattle.j2k_base.specs.Keys.{keys_differ};
ghost use Rattle.java_keywords.specs.Words.{words, word_of, begins, beside, word_kind};

use j2k_base::{Row, Table};
use java_tree::Keyword;

/// What a word is that is no identifier.
#[derive(Clone, Copy, Debug)]
pub enum WordKind {
    /// A keyword, or a literal that is a word.
    Keyword(Keyword),
    /// A word outside the profile.
    Outside,
}

macro_rules! keyword {
    ($word:literal, $keyword:ident) => {
        Row {
            key: $word,
            value: WordKind::Keyword(Keyword::$keyword),
        }
    };
}

macro_rules! outside {
    ($word:literal) => {
        Row {
            key: $word,
            value: WordKind::Outside,
        }
    };
}

static UNDERSCORE_WORDS: [Row<WordKind>; 1] = [outside!("_")];

static A_WORDS: [Row<WordKind>; 2] = [keyword!("abstract", Abstract), outside!("assert")];

static B_WORDS: [Row<WordKind>; 3] = [
    keyword!("boolean", Boolean),
    keyword!("break", Break),
    keyword!("byte", Byte),
];

static C_WORDS: [Row<WordKind>; 6] = [
    keyword!("case", Case),
    keyword!("catch", Catch),
    keyword!("char", Char),
    keyword!("class", Class),
    outside!("const"),
    keyword!("continue", Continue),
];

static D_WORDS: [Row<WordKind>; 3] = [
    keyword!("default", Default),
    keyword!("do", Do),
    outside!("double"),
];

static E_WORDS: [Row<WordKind>; 3] = [
    keyword!("else", Else),
    keyword!("enum", Enum),
    keyword!("extends", Extends),
];

static F_WORDS: [Row<WordKind>; 5] = [
    keyword!("false", False),
    keyword!("final", Final),
    keyword!("finally", Finally),
    outside!("float"),
    keyword!("for", For),
];

static G_WORDS: [Row<WordKind>; 1] = [outside!("goto")];

static I_WORDS: [Row<WordKind>; 6] = [
    keyword!("if", If),
    keyword!("implements", Implements),
    keyword!("import", Import),
    keyword!("instanceof", Instanceof),
    keyword!("int", Int),
    keyword!("interface", Interface),
];

static L_WORDS: [Row<WordKind>; 1] = [keyword!("long", Long)];

static N_WORDS: [Row<WordKind>; 3] = [
    outside!("native"),
    keyword!("new", New),
    keyword!("null", Null),
];

static P_WORDS: [Row<WordKind>; 4] = [
    keyword!("package", Package),
    keyword!("private", Private),
    keyword!("protected", Protected),
    keyword!("public", Public),
];

static R_WORDS: [Row<WordKind>; 1] = [keyword!("return", Return)];

static S_WORDS: [Row<WordKind>; 6] = [
    keyword!("short", Short),
    keyword!("static", Static),
    outside!("strictfp"),
    keyword!("super", Super),
    keyword!("switch", Switch),
    keyword!("synchronized", Synchronized),
];

static T_WORDS: [Row<WordKind>; 6] = [
    keyword!("this", This),
    keyword!("throw", Throw),
    keyword!("throws", Throws),
    outside!("transient"),
    keyword!("true", True),
    keyword!("try", Try),
];

static V_WORDS: [Row<WordKind>; 2] = [keyword!("void", Void), keyword!("volatile", Volatile)];

static W_WORDS: [Row<WordKind>; 1] = [keyword!("while", While)];

// The rows whose words begin with this letter.
#[tactic(auto, unfolding(crate::specs::Words::words))]
fn rows_from(first: u8) -> &'static [Row<WordKind>]
    ensures rows { map word_of result.now ≡ filter (begins first) words }
    ensures differ { IsTrue (keys_differ result.now) }
{
    match first {
        b'_' => &UNDERSCORE_WORDS,
        b'a' => &A_WORDS,
        b'b' => &B_WORDS,
        b'c' => &C_WORDS,
        b'd' => &D_WORDS,
        b'e' => &E_WORDS,
        b'f' => &F_WORDS,
        b'g' => &G_WORDS,
        b'i' => &I_WORDS,
        b'l' => &L_WORDS,
        b'n' => &N_WORDS,
        b'p' => &P_WORDS,
        b'r' => &R_WORDS,
        b's' => &S_WORDS,
        b't' => &T_WORDS,
        b'v' => &V_WORDS,
        b'w' => &W_WORDS,
        _ => &[],
    }
}

// The rows among which the word stands, where it stands in the table.
fn rows_for(word: &[u8]) -> &'static [Row<WordKind>]
    ensures rows { beside word.now (map word_of result.now) ≡ word_kind word.now }
    ensures differ { IsTrue (keys_differ result.now) }
{
    match word {
        [] => &[],
        [first, ..] => rows_from(*first),
    }
}

/// What a word is, where it is no identifier. It takes no memory.
pub fn word_kind(word: &[u8]) -> Option<WordKind>
    ensures value { result ≡ word_kind word.now }
    ensures beside { All (λ row. row.0 ≡ word.now → result ≡ Some row.1) words }
    ensures absent { IsNone result ↔ All (λ row. row.0 ≢ word.now) words }
{
    Table::new(rows_for(word)).get(word).copied()
}

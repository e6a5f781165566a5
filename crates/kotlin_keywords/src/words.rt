// The words of Kotlin that mean something of their own.

ghost use Rattle.std.specs.Prelude.{◌≡◌, IsTrue, map, filter};
ghost use Rattle.j2k_base.specs.Keys.{keys_differ};
ghost use Rattle.kotlin_keywords.specs.Words.{keywords, soft_words, word_of, begins, beside, word_kind};

use j2k_base::{Row, Table};
use kotlin_tree::{Keyword, Word};

/// What a word is that isn't a name alone.
#[derive(Clone, Copy, Debug)]
pub enum WordKind {
    /// A word that is no name.
    Keyword(Keyword),
    /// A word that is also a name.
    Word(Word),
}

macro_rules! keyword {
    ($word:literal, $keyword:ident) => {
        Row {
            key: $word,
            value: WordKind::Keyword(Keyword::$keyword),
        }
    };
}

macro_rules! word {
    ($word:literal, $kind:ident) => {
        Row {
            key: $word,
            value: WordKind::Word(Word::$kind),
        }
    };
}

static KEYWORDS_A: [Row<WordKind>; 1] = [keyword!("as", As)];

static KEYWORDS_B: [Row<WordKind>; 1] = [keyword!("break", Break)];

static KEYWORDS_C: [Row<WordKind>; 2] = [keyword!("class", Class), keyword!("continue", Continue)];

static KEYWORDS_D: [Row<WordKind>; 1] = [keyword!("do", Do)];

static KEYWORDS_E: [Row<WordKind>; 1] = [keyword!("else", Else)];

static KEYWORDS_F: [Row<WordKind>; 3] = [
    keyword!("false", False),
    keyword!("for", For),
    keyword!("fun", Fun),
];

static KEYWORDS_I: [Row<WordKind>; 4] = [
    keyword!("if", If),
    keyword!("in", In),
    keyword!("interface", Interface),
    keyword!("is", Is),
];

static KEYWORDS_N: [Row<WordKind>; 1] = [keyword!("null", Null)];

static KEYWORDS_O: [Row<WordKind>; 1] = [keyword!("object", Object)];

static KEYWORDS_P: [Row<WordKind>; 1] = [keyword!("package", Package)];

static KEYWORDS_R: [Row<WordKind>; 1] = [keyword!("return", Return)];

static KEYWORDS_S: [Row<WordKind>; 1] = [keyword!("super", Super)];

static KEYWORDS_T: [Row<WordKind>; 6] = [
    keyword!("this", This),
    keyword!("throw", Throw),
    keyword!("true", True),
    keyword!("try", Try),
    keyword!("typealias", Typealias),
    keyword!("typeof", Typeof),
];

static KEYWORDS_V: [Row<WordKind>; 2] = [keyword!("val", Val), keyword!("var", Var)];

static KEYWORDS_W: [Row<WordKind>; 2] = [keyword!("when", When), keyword!("while", While)];

static WORDS_CAPITAL_J: [Row<WordKind>; 2] = [
    word!("JvmField", JvmField),
    word!("JvmStatic", JvmStatic),
];

static WORDS_CAPITAL_S: [Row<WordKind>; 1] = [word!("Synchronized", SynchronizedMethod)];

static WORDS_CAPITAL_V: [Row<WordKind>; 1] = [word!("Volatile", Volatile)];

static WORDS_A: [Row<WordKind>; 2] = [word!("abstract", Abstract), word!("and", And)];

static WORDS_C: [Row<WordKind>; 4] = [
    word!("catch", Catch),
    word!("companion", Companion),
    word!("const", Const),
    word!("constructor", Constructor),
];

static WORDS_F: [Row<WordKind>; 1] = [word!("finally", Finally)];

static WORDS_I: [Row<WordKind>; 2] = [word!("import", Import), word!("init", Init)];

static WORDS_J: [Row<WordKind>; 1] = [word!("java", Java)];

static WORDS_O: [Row<WordKind>; 3] = [
    word!("open", Open),
    word!("or", Or),
    word!("override", Override),
];

static WORDS_P: [Row<WordKind>; 1] = [word!("private", Private)];

static WORDS_R: [Row<WordKind>; 1] = [word!("run", Run)];

static WORDS_S: [Row<WordKind>; 4] = [
    word!("set", Set),
    word!("shl", Shl),
    word!("shr", Shr),
    word!("synchronized", SynchronizedBlock),
];

static WORDS_U: [Row<WordKind>; 2] = [word!("until", Until), word!("ushr", Ushr)];

static WORDS_X: [Row<WordKind>; 1] = [word!("xor", Xor)];

// The rows of the keywords that begin with this letter.
#[tactic(auto, unfolding(crate::specs::Words::keywords))]
fn keywords_from(first: u8) -> &'static [Row<WordKind>]
    ensures rows { map word_of result.now ≡ filter (begins first) keywords }
    ensures differ { IsTrue (keys_differ result.now) }
{
    match first {
        b'a' => &KEYWORDS_A,
        b'b' => &KEYWORDS_B,
        b'c' => &KEYWORDS_C,
        b'd' => &KEYWORDS_D,
        b'e' => &KEYWORDS_E,
        b'f' => &KEYWORDS_F,
        b'i' => &KEYWORDS_I,
        b'n' => &KEYWORDS_N,
        b'o' => &KEYWORDS_O,
        b'p' => &KEYWORDS_P,
        b'r' => &KEYWORDS_R,
        b's' => &KEYWORDS_S,
        b't' => &KEYWORDS_T,
        b'v' => &KEYWORDS_V,
        b'w' => &KEYWORDS_W,
        _ => &[],
    }
}

// The rows of the words that are also names and that begin with this letter.
#[tactic(auto, unfolding(crate::specs::Words::soft_words))]
fn soft_words_from(first: u8) -> &'static [Row<WordKind>]
    ensures rows { map word_of result.now ≡ filter (begins first) soft_words }
    ensures differ { IsTrue (keys_differ result.now) }
{
    match first {
        b'J' => &WORDS_CAPITAL_J,
        b'S' => &WORDS_CAPITAL_S,
        b'V' => &WORDS_CAPITAL_V,
        b'a' => &WORDS_A,
        b'c' => &WORDS_C,
        b'f' => &WORDS_F,
        b'i' => &WORDS_I,
        b'j' => &WORDS_J,
        b'o' => &WORDS_O,
        b'p' => &WORDS_P,
        b'r' => &WORDS_R,
        b's' => &WORDS_S,
        b'u' => &WORDS_U,
        b'x' => &WORDS_X,
        _ => &[],
    }
}

// The rows among which the word stands, where it is a keyword.
fn keywords_for(word: &[u8]) -> &'static [Row<WordKind>]
    ensures rows { beside word.now (map word_of result.now) ≡ beside word.now keywords }
    ensures differ { IsTrue (keys_differ result.now) }
{
    match word {
        [] => &[],
        [first, ..] => keywords_from(*first),
    }
}

// The rows among which the word stands, where it means something and is also a name.
fn soft_words_for(word: &[u8]) -> &'static [Row<WordKind>]
    ensures rows { beside word.now (map word_of result.now) ≡ beside word.now soft_words }
    ensures differ { IsTrue (keys_differ result.now) }
{
    match word {
        [] => &[],
        [first, ..] => soft_words_from(*first),
    }
}

// What stands beside the word among the rows.
fn kind_beside(rows: &[Row<WordKind>], word: &[u8]) -> Option<WordKind>
    requires { IsTrue (keys_differ rows.now) }
    ensures { result ≡ beside word.now (map word_of rows.now) }
{
    Table::new(rows).get(word).copied()
}

/// What a word is that isn't a name alone. It takes no memory.
pub fn word_kind(word: &[u8]) -> Option<WordKind>
    ensures { result ≡ word_kind word.now }
{
    match kind_beside(keywords_for(word), word) {
        Some(kind) => Some(kind),
        None => kind_beside(soft_words_for(word), word),
    }
}

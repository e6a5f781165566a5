// Hard keywords and reserved names.

ghost use Rattle.std.specs.Prelude.{◌≡◌, IsTrue, map};
ghost use Rattle.j2k_base.specs.Keys.{keys_differ};
ghost use Rattle.kotlin_words.specs.Words.{word_of, hard_keywords, reserved_names, contains_word};

use j2k_base::{Row, Table};

// A row that says nothing beside its word.
macro_rules! word {
    ($word:literal) => {
        Row {
            key: $word,
            value: (),
        }
    };
}

static HARD_KEYWORDS: [Row<()>; 28] = [
    word!("as"),
    word!("break"),
    word!("class"),
    word!("continue"),
    word!("do"),
    word!("else"),
    word!("false"),
    word!("for"),
    word!("fun"),
    word!("if"),
    word!("in"),
    word!("interface"),
    word!("is"),
    word!("null"),
    word!("object"),
    word!("package"),
    word!("return"),
    word!("super"),
    word!("this"),
    word!("throw"),
    word!("true"),
    word!("try"),
    word!("typealias"),
    word!("typeof"),
    word!("val"),
    word!("var"),
    word!("when"),
    word!("while"),
];

static RESERVED_NAMES: [Row<()>; 34] = [
    word!("Any"),
    word!("Array"),
    word!("Boolean"),
    word!("BooleanArray"),
    word!("Byte"),
    word!("ByteArray"),
    word!("Char"),
    word!("CharArray"),
    word!("Companion"),
    word!("Int"),
    word!("IntArray"),
    word!("Long"),
    word!("LongArray"),
    word!("MutableList"),
    word!("MutableMap"),
    word!("Nothing"),
    word!("Short"),
    word!("ShortArray"),
    word!("String"),
    word!("Unit"),
    word!("arrayOf"),
    word!("arrayOfNulls"),
    word!("booleanArrayOf"),
    word!("byteArrayOf"),
    word!("charArrayOf"),
    word!("equals"),
    word!("hashCode"),
    word!("intArrayOf"),
    word!("longArrayOf"),
    word!("print"),
    word!("println"),
    word!("run"),
    word!("shortArrayOf"),
    word!("toString"),
];

/// Whether Kotlin takes the word for a name only in backticks. It takes no memory.
pub fn is_hard_keyword(word: &[u8]) -> bool
    ensures { result ≡ contains_word hard_keywords word.now }
{
    has_row(hard_keyword_rows(), word)
}

/// Whether Kotlin text uses the name in a meaning of its own. It takes no memory.
///
/// The simple names of the library's classes are apart from these.
pub fn is_reserved_name(name: &[u8]) -> bool
    ensures { result ≡ contains_word reserved_names name.now }
{
    has_row(reserved_name_rows(), name)
}

#[tactic(auto, unfolding(crate::specs::Words::hard_keywords))]
fn hard_keyword_rows() -> &'static [Row<()>]
    ensures rows { map word_of result.now ≡ hard_keywords }
    ensures differ { IsTrue (keys_differ result.now) }
{
    &HARD_KEYWORDS
}

#[tactic(auto, unfolding(crate::specs::Words::reserved_names))]
fn reserved_name_rows() -> &'static [Row<()>]
    ensures rows { map word_of result.now ≡ reserved_names }
    ensures differ { IsTrue (keys_differ result.now) }
{
    &RESERVED_NAMES
}

// Whether the table of these rows has one for the word.
fn has_row(rows: &[Row<()>], word: &[u8]) -> bool
    requires { IsTrue (keys_differ rows.now) }
    ensures { result ≡ contains_word (map word_of rows.now) word.now }
{
    Table::new(rows).get(word).is_some()
}

// Which names are taken.
ghost use Rattle.std.specs.Prelude.{◌≡◌};
ghost use Rattle.std.specs.List.{list_all};
ghost use Rattle.meanings.specs.KSpells as k;
ghost use Rattle.java_taken.specs.Names as n;

use java_keywords::word_kind;
use java_lib::simple_row;
use kotlin_words::is_reserved_name;

// The root of the packages of Java's library.
pub(crate) const JAVA: &str = "java";

pub(crate) const SYSTEM: &str = "System";

pub(crate) const OUT: &str = "out";

pub(crate) const PRINTLN: &str = "println";

pub(crate) const MAIN: &str = "main";

pub(crate) const STRING: &str = "String";

pub(crate) const SLASH: &str = "/";

// The end of the name of a source file.
pub(crate) const JAVA_END: &str = ".java";

/// Whether a byte may stand in backticks.
fn may_stand(byte: u8) -> bool
    ensures { result ≡ k.may_stand byte }
{
    !matches!(
        byte,
        b'`' | b'.' | b';' | b'/' | b'[' | b']' | b'<' | b'>' | b':' | b'\\' | b'\n' | b'\r'
    )
}

fn may_all_stand(bytes: &[u8]) -> bool
    ensures { result ≡ list_all k.may_stand bytes.now }
{
    bytes.iter().all(|byte| may_stand(*byte))
}

/// Whether there are bytes, and each may stand in backticks: a part of a package's name is free (JLS 3.8).
pub(crate) fn is_identifier(bytes: &[u8]) -> bool
    ensures { result ≡ n.is_identifier bytes.now }
{
    !bytes.is_empty() && may_all_stand(bytes)
}

#[tactic(auto, unfolding(crate::specs::Names::is_reserved))]
fn is_reserved(word: &[u8]) -> bool
    ensures { result ≡ n.is_reserved word.now }
{
    word_kind(word).is_some()
        || word == JAVA.as_bytes()
        || is_reserved_name(word)
        || simple_row(word).is_some()
}

/// Whether a class may have the name (JLS 3.8, 3.9).
pub(crate) fn is_free(name: &[u8]) -> bool
    ensures { result ≡ n.is_free name.now }
{
    is_identifier(name) && !is_reserved(name)
}

#[tactic(auto, unfolding(crate::specs::Names::hides))]
fn hides(name: &[u8]) -> bool
    ensures { result ≡ n.hides name.now }
{
    name == JAVA.as_bytes() || simple_row(name).is_some()
}

/// Whether a parameter or a local may have the name.
pub(crate) fn is_variable(name: &[u8]) -> bool
    ensures { result ≡ n.is_variable name.now }
{
    is_identifier(name) && !hides(name)
}

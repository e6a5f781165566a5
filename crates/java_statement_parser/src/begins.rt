//! What comes first.

ghost use Rattle.std.specs.Prelude.{◌≡◌};
ghost use Rattle.java_token_cursor.specs.Shown.{shown};
ghost use Rattle.java_statement_grammar.specs.Reading as h;

use java_token_cursor::{Head, Pieces, close_square, colon, first};
use java_tree::{Keyword, Mark, Position};
use java_type_parser::{after_dotted, primitive};

/// Whether expressions end here: at a `;` or at the end.
pub fn ends_expressions<'a>(pieces: Pieces<'a>) -> bool
    ensures { result ≡ h.ends_expressions (shown pieces.now) }
{
    match first(pieces) {
        Head::End | Head::Mark(Mark::Semicolon, _, _) => true,
        _ => false,
    }
}

/// `final` where it comes first, and what follows.
pub fn final_first<'a>(pieces: Pieces<'a>) -> (Option<Position>, Pieces<'a>)
    ensures { (result.0, shown result.1.now) ≡ h.final_first (shown pieces.now) }
{
    match first(pieces) {
        Head::Word(Keyword::Final, at, rest) => (Some(at), rest),
        _ => (None, pieces),
    }
}

fn word_declares(word: Keyword) -> bool
    ensures { result ≡ h.word_declares word }
{
    match word {
        Keyword::Final => true,
        _ => primitive(word).is_some(),
    }
}

#[tactic(auto, using(crate::proofs::Rules::looks))]
fn declares<'a>(pieces: Pieces<'a>) -> bool
    ensures { result ≡ h.declares (shown pieces.now) }
{
    match first(pieces) {
        Head::Id(_, _, _) | Head::Mark(Mark::Less, _, _) => true,
        Head::Mark(Mark::OpenSquare, _, rest) => close_square(rest).is_some(),
        _ => false,
    }
}

/// Whether a declaration comes first.
pub fn begins_declaration<'a>(pieces: Pieces<'a>) -> bool
    ensures { result ≡ h.begins_declaration (shown pieces.now) }
{
    match first(pieces) {
        Head::Word(word, _, _) => word_declares(word),
        Head::Id(_, _, rest) => declares(after_dotted(rest)),
        _ => false,
    }
}

/// Whether a name and a `:` come first.
#[tactic(auto, using(crate::proofs::Rules::looks))]
pub fn walks<'a>(pieces: Pieces<'a>) -> bool
    ensures { result ≡ h.walks (shown pieces.now) }
{
    match first(pieces) {
        Head::Id(_, _, rest) => colon(rest).is_some(),
        _ => false,
    }
}

//! What comes first.

ghost use Rattle.std.specs.Prelude.{◌≡◌};
ghost use Rattle.java_token_cursor.specs.Heads.{Finds};
ghost use Rattle.java_token_cursor.specs.Shown.{shown};
ghost use Rattle.java_statement_grammar.specs.Reading as h;
ghost use Rattle.java_declaration_parser.specs.Found.{is_end};

use java_token_cursor::{Head, Pieces, first};
use java_tree::{Mark, Position};

/// Whether no piece is left.
pub fn at_end<'a>(pieces: Pieces<'a>) -> bool
    ensures { result ≡ is_end (shown pieces.now) }
{
    match first(pieces) {
        Head::End => true,
        _ => false,
    }
}

pub fn semicolon<'a>(pieces: Pieces<'a>) -> Option<(Position, Pieces<'a>)>
    ensures { Finds (h.semicolon (shown pieces.now)) result }
{
    match first(pieces) {
        Head::Mark(Mark::Semicolon, at, rest) => Some((at, rest)),
        _ => None,
    }
}

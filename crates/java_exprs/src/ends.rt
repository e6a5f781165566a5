//! The end of arguments.

ghost use Rattle.java_expr_grammar.specs.Reading as r;
ghost use Rattle.java_token_cursor.specs.Heads.{Finds};
ghost use Rattle.java_token_cursor.specs.Shown.{shown};

use java_token_cursor::{Head, Pieces, first};
use java_tree::{Mark, Position, Span};

/// The `)` behind arguments, and the body of an anonymous class where one stands behind it.
pub fn args_end<'a>(pieces: Pieces<'a>) -> Option<((Position, Option<Span>), Pieces<'a>)>
    ensures { Finds (r.args_end (shown pieces.now)) result }
{
    match first(pieces) {
        Head::Mark(Mark::CloseRound, at, rest) => Some(((at, None), rest)),
        Head::Body(at, body, rest) => Some(((at, Some(body)), rest)),
        _ => None,
    }
}

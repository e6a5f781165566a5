//! One token, and what ends a list.

ghost use Rattle.std.specs.Prelude.{◌≡◌};
ghost use Rattle.java_expr_grammar.specs.Reading as r;
ghost use Rattle.java_statement_grammar.specs.Reading as h;
ghost use Rattle.java_unit_grammar.specs.Reading as u;
ghost use Rattle.java_token_cursor.specs.Shown.{shown};
ghost use Rattle.java_block_parser.specs.Asks.{Takes, stop};

use crate::asks::Until;
use java_body_cuts::{begins_case, begins_catch, begins_close, ends_group, is_end};
use java_token_cursor::{Head, Pieces, first};
use java_tree::{Keyword, Mark, Position};

pub fn open_round<'a>(pieces: Pieces<'a>) -> Option<(Position, Pieces<'a>)>
    ensures { Takes pieces.now (r.open_round (shown pieces.now)) result }
{
    match first(pieces) {
        Head::Mark(Mark::OpenRound, at, rest) => Some((at, rest)),
        _ => None,
    }
}

pub fn close<'a>(pieces: Pieces<'a>) -> Option<(Position, Pieces<'a>)>
    ensures { Takes pieces.now (r.close (shown pieces.now)) result }
{
    match first(pieces) {
        Head::Mark(Mark::CloseRound, at, rest) => Some((at, rest)),
        _ => None,
    }
}

pub fn colon<'a>(pieces: Pieces<'a>) -> Option<(Position, Pieces<'a>)>
    ensures { Takes pieces.now (r.colon (shown pieces.now)) result }
{
    match first(pieces) {
        Head::Mark(Mark::Colon, at, rest) => Some((at, rest)),
        _ => None,
    }
}

pub fn open_curly<'a>(pieces: Pieces<'a>) -> Option<(Position, Pieces<'a>)>
    ensures { Takes pieces.now (r.open_curly (shown pieces.now)) result }
{
    match first(pieces) {
        Head::Mark(Mark::OpenCurly, at, rest) => Some((at, rest)),
        _ => None,
    }
}

pub fn close_curly<'a>(pieces: Pieces<'a>) -> Option<(Position, Pieces<'a>)>
    ensures { Takes pieces.now (u.close_curly (shown pieces.now)) result }
{
    match first(pieces) {
        Head::Mark(Mark::CloseCurly, at, rest) => Some((at, rest)),
        _ => None,
    }
}

pub fn semicolon<'a>(pieces: Pieces<'a>) -> Option<(Position, Pieces<'a>)>
    ensures { Takes pieces.now (h.semicolon (shown pieces.now)) result }
{
    match first(pieces) {
        Head::Mark(Mark::Semicolon, at, rest) => Some((at, rest)),
        _ => None,
    }
}

pub fn while_word<'a>(pieces: Pieces<'a>) -> Option<(Position, Pieces<'a>)>
    ensures { Takes pieces.now (u.while_word (shown pieces.now)) result }
{
    match first(pieces) {
        Head::Word(Keyword::While, at, rest) => Some((at, rest)),
        _ => None,
    }
}

pub fn catch_word<'a>(pieces: Pieces<'a>) -> Option<(Position, Pieces<'a>)>
    ensures { Takes pieces.now (u.catch_word (shown pieces.now)) result }
{
    match first(pieces) {
        Head::Word(Keyword::Catch, at, rest) => Some((at, rest)),
        _ => None,
    }
}

/// Whether a list ends here.
pub fn stops<'a>(until: Until, pieces: Pieces<'a>) -> bool
    ensures { result ≡ stop until (shown pieces.now) }
{
    match until {
        Until::End => is_end(pieces),
        Until::Close => begins_close(pieces),
        Until::Group => ends_group(pieces),
        Until::NoCase => !begins_case(pieces),
        Until::NoCatch => !begins_catch(pieces),
    }
}

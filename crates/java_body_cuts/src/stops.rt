//! What ends a head.

ghost use Rattle.std.specs.Prelude.{◌≡◌, ◌<◌};
ghost use Rattle.java_token_cursor.specs.Shown.{piece_shown};
ghost use Rattle.java_tree.specs.Seen.{token_seen};
ghost use Rattle.java_unit_grammar.specs.Cutting as c;
ghost use Rattle.java_body_cuts.specs.Cuts.{opener, stop_seen, weight_seen};

use java_token_cursor::Piece;
use java_tree::{JToken, Mark, Position, TokenKind};

/// What ends a head: a `;`, the `)` that pairs with the `(` before it, the `:` that no `?` takes, or
/// the end of the constants of an enum, which is a `;` or the `}` of its body.
#[derive(Clone, Copy, Debug, PartialEq, Eq)]
pub enum Stop {
    Semicolon,
    Close,
    Colon,
    Constants,
}

#[derive(Clone, Copy)]
pub enum Weight {
    Opens,
    Closes,
    Other,
}

/// Which of the tokens that a body may stand behind a piece is.
#[derive(Clone, Copy)]
pub enum Opener {
    Arrow(Position),
    Close(Position),
    Other,
}

fn mark_weight(mark: Mark, stop: Stop) -> Weight
    ensures { weight_seen result ≡ c.weight mark (stop_seen stop) }
{
    match (stop, mark) {
        (Stop::Close, Mark::OpenRound) => Weight::Opens,
        (Stop::Close, Mark::CloseRound) => Weight::Closes,
        (Stop::Colon, Mark::Question) => Weight::Opens,
        (Stop::Colon, Mark::Colon) => Weight::Closes,
        (Stop::Constants, Mark::OpenCurly) => Weight::Opens,
        (Stop::Constants, Mark::CloseCurly | Mark::Semicolon) => Weight::Closes,
        (Stop::Semicolon, Mark::Semicolon) => Weight::Closes,
        _ => Weight::Other,
    }
}

#[tactic(auto, using(crate::proofs::Tokens::words))]
fn token_weight(token: &JToken, stop: Stop) -> Weight
    ensures { weight_seen result ≡ c.token_weight (token_seen token.now) (stop_seen stop) }
{
    match &token.kind {
        TokenKind::Mark(mark) => mark_weight(*mark, stop),
        _ => Weight::Other,
    }
}

fn piece_weight<'a>(piece: Piece<'a>, stop: Stop) -> Weight
    ensures { weight_seen result ≡ c.token_weight (piece_shown piece.entry) (stop_seen stop) }
{
    match piece {
        Piece::Token(token) => token_weight(token, stop),
        Piece::Block(_, _) => Weight::Other,
        Piece::Body(_, _) => mark_weight(Mark::CloseRound, stop),
    }
}

/// How many are open behind a piece, where `depth` are before it; None where it ends the head.
pub fn turned<'a>(piece: Piece<'a>, stop: Stop, depth: usize) -> Option<usize>
    requires { depth < usize.MAX }
    ensures { result ≡ c.turn (c.token_weight (piece_shown piece.entry) (stop_seen stop)) depth }
{
    match piece_weight(piece, stop) {
        Weight::Opens => Some(depth + 1),
        Weight::Closes if depth == 0 => None,
        Weight::Closes => Some(depth - 1),
        Weight::Other => Some(depth),
    }
}

#[tactic(auto, using(crate::proofs::Tokens::words))]
fn token_opener(token: &JToken) -> Opener
    ensures { result ≡ opener (token_seen token.now) }
{
    match &token.kind {
        TokenKind::Mark(Mark::Arrow) => Opener::Arrow(token.position),
        TokenKind::Mark(Mark::CloseRound) => Opener::Close(token.position),
        _ => Opener::Other,
    }
}

pub fn opener_of<'a>(piece: Piece<'a>) -> Opener
    ensures { result ≡ opener (piece_shown piece.entry) }
{
    match piece {
        Piece::Token(token) => token_opener(token),
        _ => Opener::Other,
    }
}

/// Whether no body counts with a piece.
#[tactic(auto, using(crate::proofs::Tokens::words))]
pub fn is_raw<'a>(piece: Piece<'a>) -> bool
    ensures { result ≡ c.is_raw (piece_shown piece.entry) }
{
    matches!(piece, Piece::Token(_))
}

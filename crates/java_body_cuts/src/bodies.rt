//! Bodies directly behind a `->` or a `)`.

ghost use Rattle.std.specs.Prelude.{◌≡◌, ◌≤◌, ◌<◌, length, IfSome};
ghost use Rattle.java_token_cursor.specs.Bodies.{closing};
ghost use Rattle.java_token_cursor.specs.Heads.{Finds};
ghost use Rattle.java_token_cursor.specs.Shown.{shown, piece_shown};
ghost use Rattle.java_body_cuts.specs.Cuts.{HasBehind, HasBody, HasInside, Turns};

use crate::parting::split;
use crate::stops::{Opener, opener_of};
use java_token_cursor::{Head, Piece, Pieces, first};
use java_tree::{Mark, Position, Span};
use java_type_parser::onward;

/// A turn of the search for the `}` of a body.
#[derive(Clone, Copy)]
enum Turn<'a> {
    End,
    Closed(Position, Pieces<'a>),
    /// How many more braces are open, and the pieces behind this one.
    Go(usize, Pieces<'a>),
}

/// A body, what stands in it and what follows it.
#[derive(Clone, Copy)]
pub struct BodyFound<'a> {
    pub span: Span,
    pub inside: Pieces<'a>,
    pub rest: Pieces<'a>,
}

/// A token as one with the body behind it.
#[derive(Clone, Copy)]
pub struct Bodied<'a> {
    pub piece: Piece<'a>,
    pub body: BodyFound<'a>,
}

#[tactic(auto, unfolding(java_token_cursor::specs::Bodies::closing, java_tree::specs::Seen::from_closing))]
fn take_turn<'a>(depth: usize, pieces: Pieces<'a>) -> Turn<'a>
    requires { depth < usize.MAX }
    ensures { Turns depth pieces.now result }
{
    match first(pieces) {
        Head::End => Turn::End,
        Head::Mark(Mark::OpenCurly, _, rest) => Turn::Go(depth + 1, rest),
        Head::Mark(Mark::CloseCurly, at, rest) => {
            if depth == 0 {
                Turn::Closed(at, rest)
            } else {
                Turn::Go(depth - 1, rest)
            }
        }
        Head::Mark(_, _, rest) => Turn::Go(depth, rest),
        Head::Id(_, _, rest) => Turn::Go(depth, rest),
        Head::Word(_, _, rest) => Turn::Go(depth, rest),
        Head::Literal(_, _, rest) => Turn::Go(depth, rest),
        Head::Block(_, _, rest) => Turn::Go(depth, rest),
        Head::Body(_, _, rest) => Turn::Go(depth, rest),
    }
}

/// The `}` of the body in which the pieces begin, and what follows it.
fn closing<'a>(pieces: Pieces<'a>) -> Option<(Position, Pieces<'a>)>
    ensures found { Finds (closing 0 (shown pieces.now)) result }
    ensures shorter { IfSome result (λ x. length x.1.now < length pieces.now) }
{
    let mut depth = 0;
    let mut rest = pieces;
    for _turn in 0..pieces.len() {
        match take_turn(depth, rest) {
            Turn::End => return None,
            Turn::Closed(at, after) => return Some((at, after)),
            Turn::Go(now, after) => {
                depth = now;
                rest = onward(after);
            }
        }
    }
    None
}

/// The body whose `{` is at `opens`, with the pieces behind it, which end before the token `end`.
#[tactic(auto, using(crate::proofs::Insides::bodies))]
fn body_behind<'a>(opens: Position, pieces: Pieces<'a>, end: u32) -> Option<BodyFound<'a>>
    requires { length pieces.now ≤ end }
    ensures { HasInside end opens pieces.now result }
{
    let (closes, rest) = closing(pieces)?;
    let from = end - pieces.len() as u32;
    let to = end - (rest.len() as u32 + 1);
    let span = Span {
        opens,
        from,
        to,
        closes,
    };
    let (inside, _) = split(pieces, (to - from) as usize);
    Some(BodyFound { span, inside, rest })
}

/// The body whose `{` comes first.
fn body_at<'a>(pieces: Pieces<'a>, end: u32) -> Option<BodyFound<'a>>
    requires { length pieces.now ≤ end }
    ensures { HasBody end pieces.now result }
{
    match first(pieces) {
        Head::Mark(Mark::OpenCurly, opens, inside) => body_behind(opens, inside, end),
        _ => None,
    }
}

/// The body that counts with a piece, where `pieces` follow it.
pub fn behind<'a>(piece: Piece<'a>, pieces: Pieces<'a>, end: u32) -> Option<Bodied<'a>>
    requires { length pieces.now ≤ end }
    ensures { HasBehind (piece_shown piece.entry) end pieces.now result }
{
    match opener_of(piece) {
        Opener::Arrow(at) => {
            let body = body_at(pieces, end)?;
            let piece = Piece::Block(at, body.span);
            Some(Bodied { piece, body })
        }
        Opener::Close(at) => {
            let body = body_at(pieces, end)?;
            let piece = Piece::Body(at, body.span);
            Some(Bodied { piece, body })
        }
        Opener::Other => None,
    }
}

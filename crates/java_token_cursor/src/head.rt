//! The first of the pieces.

ghost use Rattle.std.specs.Prelude.{◌≡◌, IfOk};
ghost use Rattle.java_tree.specs.Seen.{literal};
ghost use Rattle.java_expr_grammar.specs.Reading as r;
ghost use Rattle.java_token_cursor.specs.Heads.{IsHead, Finds, close_curly, unclosed};
ghost use Rattle.java_token_cursor.specs.Shown.{shown};

use crate::piece::{Piece, Pieces};
use j2k_base::{Name, NoMemory, Units};
use java_tree::{JLiteral, Keyword, Mark, Position, Span, TokenKind};
use std::alloc::Global;

/// The first piece and what follows it.
#[derive(Clone, Copy)]
pub enum Head<'a> {
    End,
    Mark(Mark, Position, Pieces<'a>),
    Word(Keyword, Position, Pieces<'a>),
    Id(&'a Name, Position, Pieces<'a>),
    Literal(&'a TokenKind, Position, Pieces<'a>),
    /// `->` and the block of a lambda.
    Block(Position, Span, Pieces<'a>),
    /// `)` and the body of an anonymous class.
    Body(Position, Span, Pieces<'a>),
}

/// The first piece; `true`, `false` and `null` are literals.
#[tactic(auto, unfolding(crate::specs::Shown::shown))]
pub fn first<'a>(pieces: Pieces<'a>) -> Head<'a>
    ensures { IsHead pieces.now result }
{
    let Some((piece, rest)) = pieces.split_first() else {
        return Head::End;
    };
    let token = match piece {
        Piece::Token(token) => *token,
        Piece::Block(at, body) => return Head::Block(*at, *body, rest),
        Piece::Body(at, body) => return Head::Body(*at, *body, rest),
    };
    let at = token.position;
    match &token.kind {
        TokenKind::Mark(mark) => Head::Mark(*mark, at, rest),
        TokenKind::Name(name) => Head::Id(name, at, rest),
        TokenKind::Keyword(Keyword::True | Keyword::False | Keyword::Null) => {
            Head::Literal(&token.kind, at, rest)
        }
        TokenKind::Keyword(word) => Head::Word(*word, at, rest),
        _ => Head::Literal(&token.kind, at, rest),
    }
}

pub fn comma<'a>(pieces: Pieces<'a>) -> Option<(Position, Pieces<'a>)>
    ensures { Finds (r.comma (shown pieces.now)) result }
{
    match first(pieces) {
        Head::Mark(Mark::Comma, at, rest) => Some((at, rest)),
        _ => None,
    }
}

pub fn close<'a>(pieces: Pieces<'a>) -> Option<(Position, Pieces<'a>)>
    ensures { Finds (r.close (shown pieces.now)) result }
{
    match first(pieces) {
        Head::Mark(Mark::CloseRound, at, rest) => Some((at, rest)),
        _ => None,
    }
}

pub fn open_round<'a>(pieces: Pieces<'a>) -> Option<(Position, Pieces<'a>)>
    ensures { Finds (r.open_round (shown pieces.now)) result }
{
    match first(pieces) {
        Head::Mark(Mark::OpenRound, at, rest) => Some((at, rest)),
        _ => None,
    }
}

pub fn close_square<'a>(pieces: Pieces<'a>) -> Option<(Position, Pieces<'a>)>
    ensures { Finds (r.close_square (shown pieces.now)) result }
{
    match first(pieces) {
        Head::Mark(Mark::CloseSquare, at, rest) => Some((at, rest)),
        _ => None,
    }
}

pub fn open_curly<'a>(pieces: Pieces<'a>) -> Option<(Position, Pieces<'a>)>
    ensures { Finds (r.open_curly (shown pieces.now)) result }
{
    match first(pieces) {
        Head::Mark(Mark::OpenCurly, at, rest) => Some((at, rest)),
        _ => None,
    }
}

pub fn dot<'a>(pieces: Pieces<'a>) -> Option<(Position, Pieces<'a>)>
    ensures { Finds (r.dot (shown pieces.now)) result }
{
    match first(pieces) {
        Head::Mark(Mark::Dot, at, rest) => Some((at, rest)),
        _ => None,
    }
}

pub fn colon<'a>(pieces: Pieces<'a>) -> Option<(Position, Pieces<'a>)>
    ensures { Finds (r.colon (shown pieces.now)) result }
{
    match first(pieces) {
        Head::Mark(Mark::Colon, at, rest) => Some((at, rest)),
        _ => None,
    }
}

pub fn arrow<'a>(pieces: Pieces<'a>) -> Option<(Position, Pieces<'a>)>
    ensures { Finds (r.arrow (shown pieces.now)) result }
{
    match first(pieces) {
        Head::Mark(Mark::Arrow, at, rest) => Some((at, rest)),
        _ => None,
    }
}

fn close_curly<'a>(pieces: Pieces<'a>) -> Option<(Position, Pieces<'a>)>
    ensures { Finds (close_curly (shown pieces.now)) result }
{
    match first(pieces) {
        Head::Mark(Mark::CloseCurly, at, rest) => Some((at, rest)),
        _ => None,
    }
}

fn unclosed<'a>(at: Position, pieces: Pieces<'a>) -> Option<(Position, Pieces<'a>)>
    ensures { Finds (unclosed at (shown pieces.now)) result }
{
    match first(pieces) {
        Head::Mark(Mark::CloseCurly, _, _) => None,
        _ => Some((at, pieces)),
    }
}

/// A comma with no `}` behind it.
#[tactic(auto, using(crate::proofs::Braces::braces))]
pub fn inner_comma<'a>(pieces: Pieces<'a>) -> Option<(Position, Pieces<'a>)>
    ensures { Finds (r.inner_comma (shown pieces.now)) result }
{
    let (at, rest) = comma(pieces)?;
    unclosed(at, rest)
}

/// The `}` behind values, and the comma before it where one stands.
#[tactic(auto, using(crate::proofs::Braces::braces))]
pub fn braces_end<'a>(pieces: Pieces<'a>) -> Option<((Option<Position>, Position), Pieces<'a>)>
    ensures { Finds (r.braces_end (shown pieces.now)) result }
{
    if let Some((close, rest)) = close_curly(pieces) {
        return Some(((None, close), rest));
    }
    let (at, rest) = comma(pieces)?;
    let (close, rest) = close_curly(rest)?;
    Some(((Some(at), close), rest))
}

pub fn copied(alloc: Global, name: &Name) -> Result<Name, NoMemory>
    ensures { IfOk result (λ n. n ≡ name.now) }
{
    Name::from_str(alloc, name.as_str())
}

/// The literal that a token is, where it is one.
pub fn copied_literal(alloc: Global, kind: &TokenKind) -> Result<JLiteral, NoMemory>
    ensures { IfOk result (λ x. x ≡ literal kind.now) }
{
    match kind {
        TokenKind::Integer(n) => Ok(JLiteral::Integer(*n)),
        TokenKind::LeastInteger => Ok(JLiteral::LeastInteger),
        TokenKind::Long(n) => Ok(JLiteral::Long(*n)),
        TokenKind::LeastLong => Ok(JLiteral::LeastLong),
        TokenKind::Character(unit) => Ok(JLiteral::Character(*unit)),
        TokenKind::Text(units) => {
            let units = Vec::from_slice(alloc, units.as_slice())?;
            Ok(JLiteral::Text(Units::from_vec(units)))
        }
        TokenKind::Keyword(Keyword::True) => Ok(JLiteral::True),
        TokenKind::Keyword(Keyword::False) => Ok(JLiteral::False),
        _ => Ok(JLiteral::Null),
    }
}

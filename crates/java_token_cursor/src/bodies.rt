//! Taking bodies as one with the token before them.

ghost use Rattle.std.specs.Prelude.{◌≡◌, ◌≤◌, ◌<◌, length, IfOk, IfSome};
ghost use Rattle.java_tree.specs.Seen as t;
ghost use Rattle.java_tree.specs.Seen.{seen, token_seen};
ghost use Rattle.java_token_cursor.specs.Bodies as b;
ghost use Rattle.java_token_cursor.specs.Bodies.{FindsBehind, Parts};
ghost use Rattle.java_token_cursor.specs.Shown.{shown, piece_shown};

use crate::piece::Piece;
use j2k_base::NoMemory;
use java_tree::{JToken, Mark, Position, Span, TokenKind};
use std::alloc::Global;

/// Which brace a token is.
#[derive(Clone, Copy)]
enum Brace {
    Opens(Position),
    Closes(Position),
    Other,
}

/// Which of the tokens that a body may stand behind a token is.
#[derive(Clone, Copy)]
enum Opener {
    Arrow(Position),
    CloseRound(Position),
    Other,
}

#[tactic(auto, unfolding(java_tree::specs::Seen::seen))]
fn parted<'a>(tokens: &'a [JToken]) -> Option<(&'a JToken, &'a [JToken])>
    ensures { Parts tokens.now result }
{
    tokens.split_first()
}

fn brace_of(token: &JToken) -> Brace
    ensures { result ≡ b.brace (token_seen token.now) }
{
    match &token.kind {
        TokenKind::Mark(Mark::OpenCurly) => Brace::Opens(token.position),
        TokenKind::Mark(Mark::CloseCurly) => Brace::Closes(token.position),
        _ => Brace::Other,
    }
}

fn opener_of(token: &JToken) -> Opener
    ensures { result ≡ b.opener (token_seen token.now) }
{
    match &token.kind {
        TokenKind::Mark(Mark::Arrow) => Opener::Arrow(token.position),
        TokenKind::Mark(Mark::CloseRound) => Opener::CloseRound(token.position),
        _ => Opener::Other,
    }
}

/// What a token does where a body's `}` is looked for.
#[derive(Clone, Copy)]
enum Turn {
    /// How many more braces are open behind it.
    Open(usize),
    /// It is the `}`.
    Closed(Position),
}

fn turned(depth: usize, token: Brace) -> Turn
    requires { depth < usize.MAX }
    ensures { result ≡ b.turn depth token }
{
    match token {
        Brace::Opens(_) => Turn::Open(depth + 1),
        Brace::Closes(_) if depth > 0 => Turn::Open(depth - 1),
        Brace::Closes(at) => Turn::Closed(at),
        Brace::Other => Turn::Open(depth),
    }
}

/// The `}` of the body in which the tokens begin, and what follows it.
#[tactic(auto, using(crate::proofs::BodySteps::bodies))]
fn closing<'a>(tokens: &'a [JToken]) -> Option<(Position, &'a [JToken])>
    ensures found { FindsBehind (b.closing 0 (seen tokens.now)) result }
    ensures shorter { IfSome result (λ x. length x.1.now < length tokens.now) }
{
    let mut depth = 0;
    let mut rest = tokens;
    while let Some((token, behind)) = parted(rest) {
        match turned(depth, brace_of(token)) {
            Turn::Open(now) => depth = now,
            Turn::Closed(at) => return Some((at, behind)),
        }
        rest = behind;
    }
    None
}

/// The body whose `{` comes first, and what follows it.
#[tactic(auto, using(crate::proofs::BodySteps::bodies))]
fn body_at<'a>(tokens: &'a [JToken], end: u32) -> Option<(Span, &'a [JToken])>
    requires { length tokens.now ≤ end }
    ensures found { FindsBehind (t.body end (seen tokens.now)) result }
    ensures shorter { IfSome result (λ x. length x.1.now < length tokens.now) }
{
    let (first, inside) = parted(tokens)?;
    let Brace::Opens(opens) = brace_of(first) else {
        return None;
    };
    let (closes, rest) = closing(inside)?;
    let from = end - inside.len() as u32;
    let to = end - (rest.len() as u32 + 1);
    let body = Span {
        opens,
        from,
        to,
        closes,
    };
    Some((body, rest))
}

/// A token with the body directly behind it, and what follows.
#[tactic(auto, using(crate::proofs::BodySteps::bodies))]
fn piece_at<'a>(token: &'a JToken, behind: &'a [JToken], end: u32) -> (Piece<'a>, &'a [JToken])
    requires { length behind.now ≤ end }
    ensures value { (piece_shown result.0, seen result.1.now) ≡ t.piece end (token_seen token.now) (seen behind.now) }
    ensures shorter { length result.1.now ≤ length behind.now }
{
    let opener = opener_of(token);
    if let Opener::Other = opener {
        return (Piece::Token(token), behind);
    }
    let Some((body, rest)) = body_at(behind, end) else {
        return (Piece::Token(token), behind);
    };
    match opener {
        Opener::Arrow(at) => (Piece::Block(at, body), rest),
        Opener::CloseRound(at) => (Piece::Body(at, body), rest),
        Opener::Other => (Piece::Token(token), behind),
    }
}

/// The tokens with the bodies among them taken as one with the token before them. They end before
/// the token `end` of the file.
#[tactic(auto, using(crate::proofs::BodySteps::listed))]
pub fn pieces<'a>(alloc: Global, tokens: &'a [JToken], end: u32) -> Result<Vec<Piece<'a>>, NoMemory>
    requires { length tokens.now ≤ end }
    ensures { IfOk result (λ v. shown v.items ≡ t.pieces end (seen tokens.now)) }
{
    let mut found = Vec::new(alloc);
    let mut rest = tokens;
    while let Some((token, behind)) = parted(rest) {
        let (piece, after) = piece_at(token, behind, end);
        found.push(piece)?;
        rest = after;
    }
    Ok(found)
}

// A text is cut into white space, comments and tokens.

ghost use Rattle.std.specs.Prelude.{◌≡◌, ◌-◌, ◌^◌, ◌<◌, ◌≤◌, ◌++◌, length, false, IfOk, IsTrue, OnOk};
ghost use Rattle.java_tree.specs.declared.tokens.Position.{Position};
ghost use Rattle.java_characters.specs.Letters.{Letters, letters, IsAt, IsFrom};
ghost use Rattle.java_lexer.specs.declared.found.Code.TheVariants.{Outside};
ghost use Rattle.java_lexer.specs.declared.found.Piece.TheVariants.{End};
ghost use Rattle.java_lexer.specs.Found.{cut_of, fault, is_last};
ghost use Rattle.java_lexer.specs.Cutting.{is_minus, before_mark, before_kind, before_next, is_override, annotated, behind_at, is_cut, judged, next_piece, token_in, comment_in, end_fault, fault_of, Reading};

use crate::found::{Code, Found, LexFault, Piece, fault, let_go};
use crate::pieces::piece_of;
use j2k_base::NoMemory;
use java_characters::{Cursor, Ending, Front, front_at, start};
use java_tree::{Comments, JTokens, Mark, Position, TokenKind};
use std::alloc::Global;

/// What the last token is to the next one.
#[derive(Clone, Copy)]
pub enum Before {
    Other,
    Minus,
    /// An `@`, and where it stands.
    At(Position),
}

fn is_minus(before: Before) -> bool
    ensures { result ≡ is_minus before }
{
    match before {
        Before::Minus => true,
        _ => false,
    }
}

fn before_mark(position: Position, mark: Mark) -> Before
    ensures { result ≡ before_mark position mark }
{
    match mark {
        Mark::Minus => Before::Minus,
        Mark::At => Before::At(position),
        _ => Before::Other,
    }
}

fn before_kind(position: Position, kind: &TokenKind) -> Before
    ensures { result ≡ before_kind position kind.now }
{
    match kind {
        TokenKind::Mark(mark) => before_mark(position, *mark),
        _ => Before::Other,
    }
}

/// The last token, behind one more piece.
fn before_next(before: Before, piece: &Piece) -> Before
    ensures { result ≡ before_next before piece.now }
{
    match piece {
        Piece::Token(token) => before_kind(token.position, &token.kind),
        _ => before,
    }
}

fn is_override(kind: &TokenKind) -> bool
    ensures { result ≡ is_override kind.now }
{
    match kind {
        TokenKind::Name(name) => name.as_str() == "Override",
        _ => false,
    }
}

fn is_last(piece: &Piece) -> bool
    ensures { result ≡ is_last piece.now }
{
    match piece {
        Piece::End => true,
        Piece::Fault(_) => true,
        _ => false,
    }
}

/// Whether a piece may stand behind an `@`.
fn may_follow_at(piece: &Piece) -> bool
    ensures kept { IsTrue result → (p : Position) (rest : Letters) → behind_at p piece.now rest ≡ record { piece = piece.now; rest = rest } }
    ensures outside { result ≡ false → (p : Position) (rest : Letters) → behind_at p piece.now rest ≡ fault Outside p rest }
{
    match piece {
        Piece::Token(token) => is_override(&token.kind),
        Piece::Comment(_) => true,
        Piece::White => true,
        _ => false,
    }
}

fn behind_at(position: Position, found: Found, bytes: &[u8]) -> Found
    ensures value { cut_of bytes.now result ≡ behind_at position found.piece (letters bytes.now found.next) }
    ensures next { result.next ≡ found.next }
    ensures last { is_last result.piece ≡ false → is_last found.piece ≡ false }
{
    if may_follow_at(&found.piece) {
        return found;
    }
    let next = found.next;
    let_go(found);
    fault(Code::Outside, position, next)
}

fn annotated(before: Before, found: Found, bytes: &[u8]) -> Found
    ensures value { cut_of bytes.now result ≡ annotated before (cut_of bytes.now found) }
    ensures next { result.next ≡ found.next }
    ensures last { is_last result.piece ≡ false → is_last found.piece ≡ false }
{
    match before {
        Before::At(position) => behind_at(position, found, bytes),
        _ => found,
    }
}

fn is_cut(ending: Ending) -> bool
    ensures { result ≡ is_cut ending }
{
    match ending {
        Ending::File => false,
        _ => true,
    }
}

/// Whether something is a fault since its text was cut there.
fn is_cut_off(found: &Found, bytes: &[u8]) -> bool
    requires { IsAt bytes.now found.now.next }
    ensures off { IsTrue result → judged (cut_of bytes.now found.now) ≡ record { piece = End; rest = letters bytes.now found.now.next } }
    ensures whole { result ≡ false → judged (cut_of bytes.now found.now) ≡ cut_of bytes.now found.now }
{
    let Piece::Fault(_) = &found.piece else {
        return false;
    };
    match front_at(bytes, found.next) {
        Front::Stop(ending, _) => is_cut(ending),
        Front::Letter(..) => false,
    }
}

/// Where the text was cut, what reaches its end is no fault of its own.
fn judged(found: Found, bytes: &[u8]) -> Found
    requires { IsAt bytes.now found.next }
    ensures value { cut_of bytes.now result ≡ judged (cut_of bytes.now found) }
    ensures next { result.next ≡ found.next }
    ensures last { is_last result.piece ≡ false → is_last found.piece ≡ false }
{
    if !is_cut_off(&found, bytes) {
        return found;
    }
    let next = found.next;
    let_go(found);
    Found {
        piece: Piece::End,
        next,
    }
}

/// The piece that the text begins with at a place, behind this token.
#[tactic(auto, unfolding(crate::specs::Cutting::next_piece))]
fn next_piece(alloc: Global, before: Before, bytes: &[u8], at: Cursor) -> Result<Found, NoMemory>
    requires { IsAt bytes.now at }
    ensures value { IfOk result (λ f. cut_of bytes.now f ≡ next_piece before (letters bytes.now at)) }
    ensures next { IfOk result (λ f. IsFrom bytes.now at f.next) }
    ensures forward { IfOk result (λ f. is_last f.piece ≡ false → at.position.offset < f.next.position.offset) }
{
    let found = piece_of(alloc, is_minus(before), bytes, at)?;
    Ok(judged(annotated(before, found, bytes), bytes))
}

/// The fault where the text ends, if its end is one.
fn end_fault(bytes: &[u8], at: Cursor) -> Option<LexFault>
    requires { IsAt bytes.now at }
    ensures { result ≡ end_fault (letters bytes.now at) }
{
    match front_at(bytes, at) {
        Front::Stop(Ending::Byte, position) => Some(LexFault {
            code: Code::Utf8,
            position,
        }),
        Front::Stop(Ending::Escape, position) => Some(LexFault {
            code: Code::Escape,
            position,
        }),
        _ => None,
    }
}

fn fault_of(found: &Found, bytes: &[u8]) -> Option<LexFault>
    requires { IsAt bytes.now found.now.next }
    ensures { result ≡ fault_of found.now.piece (letters bytes.now found.now.next) }
{
    match &found.piece {
        Piece::Fault(fault) => Some(*fault),
        Piece::End => end_fault(bytes, found.next),
        _ => None,
    }
}

fn keep(tokens: &mut JTokens, comments: &mut Comments, piece: Piece) -> Result<(), NoMemory>
    ensures tokens { OnOk result (tokens.new ≡ tokens.old ++ token_in piece) }
    ensures comments { OnOk result (comments.new ≡ comments.old ++ comment_in piece) }
{
    match piece {
        Piece::Token(token) => tokens.push(token),
        Piece::Comment(comment) => comments.push(comment),
        _ => Ok(()),
    }
}

/// The tokens and comments of bytes up to their end or the first fault, and that fault.
#[derive(Drop)]
pub struct Read {
    pub tokens: JTokens,
    pub comments: Comments,
    pub fault: Option<LexFault>,
}

/// The tokens and comments of bytes, up to their end or the first fault.
pub fn reading_of(alloc: Global, bytes: &[u8]) -> Result<Read, NoMemory>
    requires { length bytes.now < 2 ^ 32 - 1 }
    ensures reading { IfOk result (λ r. Reading bytes.now r.tokens r.comments r.fault) }
    ensures few { IfOk result (λ r. length r.tokens ≤ length bytes.now) }
{
    let mut tokens = JTokens::new(alloc);
    let mut comments = Comments::new(alloc);
    let mut before = Before::Other;
    let mut at = start();
    'pieces: loop {
        let found = next_piece(alloc, before, bytes, at)?;
        if is_last(&found.piece) {
            let fault = fault_of(&found, bytes);
            let_go(found);
            return Ok(Read {
                tokens,
                comments,
                fault,
            });
        }
        let Found { piece, next } = found;
        before = before_next(before, &piece);
        at = next;
        keep(&mut tokens, &mut comments, piece)?;
    }
}

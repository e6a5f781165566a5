// What a text begins with: a blank, a line end, a `;` or a token.

ghost use Rattle.std.specs.Prelude.{◌≡◌, ◌<◌, ◌≤◌, false, IfOk};
ghost use Rattle.kotlin_characters.specs.Letters.{letters, IsAt, IsFrom};
ghost use Rattle.kotlin_characters.specs.Scans.{drop_while};
ghost use Rattle.kotlin_lexer.specs.Found.{cut_of, blank, is_last};
ghost use Rattle.kotlin_lexer.specs.Pieces.{is_blank, is_line_end, is_in, block_piece, mark_piece, slash_piece, token_piece, quoted_token, end_piece, piece_of};

use crate::found::{Code, Found, LexFault, Piece, fault, token, unformed};
use crate::literals::{character_piece, string_piece};
use crate::marks::{MarkKind, mark_of};
use crate::names::{is_start, quoted_piece, word_piece};
use crate::numbers::{is_digit, number_piece};
use j2k_base::NoMemory;
use kotlin_characters::{Cursor, Ending, Front, front_at, head_at, skip, tail_at};
use kotlin_tree::{Position, TokenKind};
use std::alloc::Global;

#[derive(Clone, Copy)]
pub enum Class {
    Blank,
    Line,
}

fn is_blank(code: u32) -> bool
    ensures { result ≡ is_blank code }
{
    code == 32 || code == 9 || code == 12
}

fn is_line_end(code: u32) -> bool
    ensures { result ≡ is_line_end code }
{
    code == 10 || code == 13
}

fn is_in(class: Class, code: u32) -> bool
    ensures { result ≡ is_in class code }
{
    match class {
        Class::Blank => is_blank(code),
        Class::Line => !is_line_end(code),
    }
}

/// The place behind the letters of a class.
fn past(class: Class, bytes: &[u8], at: Cursor) -> Cursor
    requires { IsAt bytes.now at }
    ensures rest { letters bytes.now result ≡ drop_while (is_in class) (letters bytes.now at) }
    ensures next { IsFrom bytes.now at result }
{
    let mut next = at;
    'letters: loop {
        match front_at(bytes, next) {
            Front::Letter(letter, after) => {
                if !is_in(class, letter as u32) {
                    return next;
                }
                next = after;
            }
            Front::Stop(_) => return next,
        }
    }
}

fn blank(next: Cursor, bytes: &[u8]) -> Found
    ensures value { cut_of bytes.now result ≡ blank (letters bytes.now next) }
    ensures next { result.next ≡ next }
{
    Found {
        piece: Piece::Blank,
        next,
    }
}

/// The block comment behind its opening mark, and those within it.
#[tactic(auto, using(crate::proofs::Comments::passed))]
fn block_piece(position: Position, bytes: &[u8], at: Cursor) -> Found
    requires { IsAt bytes.now at }
    ensures value { cut_of bytes.now result ≡ block_piece position 0 0 (letters bytes.now at) }
    ensures next { IsFrom bytes.now at result.next }
{
    let mut depth: u32 = 0;
    let mut next = at;
    'letters: loop {
        let Front::Letter(letter, after) = front_at(bytes, next) else {
            return unformed(Code::Form, position, bytes, next);
        };
        let second = head_at(bytes, after);
        if letter == '*' && second == 47 {
            let end = tail_at(bytes, after);
            if depth == 0 {
                return blank(end, bytes);
            }
            depth -= 1;
            next = end;
        } else if letter == '/' && second == 42 {
            depth += 1;
            next = tail_at(bytes, after);
        } else {
            next = after;
        }
    }
}

/// The mark that the text at a place begins with, whose first letter this is.
#[tactic(auto, unfolding(crate::specs::Pieces::mark_piece))]
fn mark_piece(code: u32, bytes: &[u8], at: Cursor, next: Cursor) -> Found
    requires at { IsAt bytes.now at }
    requires next { IsFrom bytes.now at next }
    ensures value { cut_of bytes.now result ≡ mark_piece at.position code (letters bytes.now next) (letters bytes.now at) }
    ensures next { IsFrom bytes.now at result.next }
    ensures behind { is_last result.piece ≡ false → next.position.offset ≤ result.next.position.offset }
{
    let second = head_at(bytes, next);
    let third = head_at(bytes, tail_at(bytes, next));
    match mark_of(code, second, third) {
        MarkKind::Nothing => fault(Code::Character, at.position, at),
        MarkKind::Mark(mark, more) => {
            token(TokenKind::Mark(mark), at.position, skip(bytes, more, next))
        }
    }
}

/// What a `/` begins.
#[tactic(auto, unfolding(crate::specs::Pieces::slash_piece))]
fn slash_piece(bytes: &[u8], at: Cursor, next: Cursor) -> Found
    requires at { IsAt bytes.now at }
    requires next { IsFrom bytes.now at next }
    ensures value { cut_of bytes.now result ≡ slash_piece at.position (letters bytes.now next) (letters bytes.now at) }
    ensures next { IsFrom bytes.now at result.next }
    ensures behind { is_last result.piece ≡ false → next.position.offset ≤ result.next.position.offset }
{
    let second = head_at(bytes, next);
    if second == 47 {
        let end = past(Class::Line, bytes, tail_at(bytes, next));
        blank(end, bytes)
    } else if second == 42 {
        block_piece(at.position, bytes, tail_at(bytes, next))
    } else {
        mark_piece(47, bytes, at, next)
    }
}

/// A number, a word or a mark.
#[tactic(auto, unfolding(crate::specs::Pieces::token_piece))]
fn token_piece(
    alloc: Global,
    first: char,
    bytes: &[u8],
    at: Cursor,
    next: Cursor,
) -> Result<Found, NoMemory>
    requires at { IsAt bytes.now at }
    requires next { IsFrom bytes.now at next }
    ensures value { IfOk result (λ f. cut_of bytes.now f ≡ token_piece at.position first (letters bytes.now next) (letters bytes.now at)) }
    ensures next { IfOk result (λ f. IsFrom bytes.now at f.next) }
    ensures behind { IfOk result (λ f. is_last f.piece ≡ false → next.position.offset ≤ f.next.position.offset) }
{
    let code = first as u32;
    if is_digit(code) {
        Ok(number_piece(at.position, code, bytes, next))
    } else if is_start(first) {
        word_piece(alloc, at.position, first, bytes, next)
    } else {
        Ok(mark_piece(code, bytes, at, next))
    }
}

/// A token that begins with a mark which stands at its end too, or another token.
#[tactic(auto, unfolding(crate::specs::Pieces::quoted_token))]
fn quoted_token(
    alloc: Global,
    first: char,
    bytes: &[u8],
    at: Cursor,
    next: Cursor,
) -> Result<Found, NoMemory>
    requires at { IsAt bytes.now at }
    requires next { IsFrom bytes.now at next }
    ensures value { IfOk result (λ f. cut_of bytes.now f ≡ quoted_token at.position first (letters bytes.now next) (letters bytes.now at)) }
    ensures next { IfOk result (λ f. IsFrom bytes.now at f.next) }
    ensures behind { IfOk result (λ f. is_last f.piece ≡ false → next.position.offset ≤ f.next.position.offset) }
{
    match first {
        '"' => string_piece(alloc, at.position, bytes, next),
        '\'' => Ok(character_piece(at.position, bytes, next)),
        '`' => quoted_piece(alloc, at.position, bytes, next),
        _ => token_piece(alloc, first, bytes, at, next),
    }
}

fn end_piece(ending: Ending, at: Cursor) -> Found
    ensures { result ≡ record { piece = end_piece ending at.position; next = at } }
{
    let piece = match ending {
        Ending::File => Piece::End(at.position),
        Ending::Byte => Piece::Fault(LexFault {
            code: Code::Utf8,
            position: at.position,
        }),
    };
    Found { piece, next: at }
}

/// What the text begins with at a place.
#[tactic(auto, unfolding(crate::specs::Pieces::piece_of))]
pub fn piece_of(alloc: Global, bytes: &[u8], at: Cursor) -> Result<Found, NoMemory>
    requires { IsAt bytes.now at }
    ensures value { IfOk result (λ f. cut_of bytes.now f ≡ piece_of (letters bytes.now at)) }
    ensures next { IfOk result (λ f. IsFrom bytes.now at f.next) }
    ensures forward { IfOk result (λ f. is_last f.piece ≡ false → at.position.offset < f.next.position.offset) }
{
    let (first, next) = match front_at(bytes, at) {
        Front::Stop(ending) => return Ok(end_piece(ending, at)),
        Front::Letter(first, next) => (first, next),
    };
    let code = first as u32;
    if is_blank(code) {
        Ok(blank(past(Class::Blank, bytes, next), bytes))
    } else if is_line_end(code) {
        Ok(Found {
            piece: Piece::LineEnd,
            next,
        })
    } else if first == ';' {
        Ok(Found {
            piece: Piece::Semicolon,
            next,
        })
    } else if first == '/' {
        Ok(slash_piece(bytes, at, next))
    } else {
        quoted_token(alloc, first, bytes, at, next)
    }
}

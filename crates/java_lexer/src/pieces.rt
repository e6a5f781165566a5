// What a text begins with: white space, a comment or a token.

ghost use Rattle.std.specs.Prelude.{◌≡◌, ◌≢◌, ◌<◌, ◌≤◌, false, IsTrue, IfOk};
ghost use Rattle.java_characters.specs.Letters.{letters, letter, IsAt, IsFrom};
ghost use Rattle.java_characters.specs.Scans.{head, tail, drop_while, drop_letters};
ghost use Rattle.java_lexer.specs.Found.{cut_of, comment, is_last};
ghost use Rattle.java_lexer.specs.Pieces.{is_white, is_in, block_piece, mark_piece, slash_piece, begins_number, token_piece, piece_of};

use crate::found::{Code, Found, Piece, fault, token};
use crate::literals::{character_piece, is_line_end, string_piece};
use crate::marks::{MarkKind, mark_of};
use crate::names::{starting, word_piece};
use crate::numbers::{is_decimal, number_piece};
use j2k_base::NoMemory;
use java_characters::{Cursor, Front, front_at, head_at, place_at, skip, tail_at};
use java_tree::{Comment, Position, TokenKind};
use std::alloc::Global;

#[derive(Clone, Copy)]
pub enum Class {
    White,
    Line,
}

fn is_white(code: u32) -> bool
    ensures { result ≡ is_white code }
{
    code == 32 || code == 9 || code == 12 || is_line_end(code)
}

fn is_in(class: Class, code: u32) -> bool
    ensures { result ≡ is_in class code }
{
    match class {
        Class::White => is_white(code),
        Class::Line => !is_line_end(code),
    }
}

/// The place behind the letters of a class.
fn past(class: Class, bytes: &[u8], at: Cursor) -> Cursor
    requires { IsAt bytes.now at }
    ensures rest { letters bytes.now result ≡ drop_while (is_in class) (letters bytes.now at) }
    ensures next { IsFrom bytes.now at result }
{
    let mut next = at;
    'letters: loop {
        match front_at(bytes, next) {
            Front::Letter(code, after) => {
                if !is_in(class, code) {
                    return next;
                }
                next = after;
            }
            Front::Stop(_, _) => return next,
        }
    }
}

fn comment(position: Position, bytes: &[u8], next: Cursor) -> Found
    requires { IsAt bytes.now next }
    ensures value { cut_of bytes.now result ≡ comment position (letters bytes.now next) }
    ensures next { result.next ≡ next }
{
    let end = place_at(bytes, next).offset;
    Found {
        piece: Piece::Comment(Comment { position, end }),
        next,
    }
}

/// The block comment behind its opening mark.
fn block_piece(position: Position, bytes: &[u8], at: Cursor) -> Found
    requires { IsAt bytes.now at }
    ensures value { cut_of bytes.now result ≡ block_piece position (letters bytes.now at) }
    ensures next { IsFrom bytes.now at result.next }
{
    let mut next = at;
    'letters: loop {
        let Front::Letter(code, after) = front_at(bytes, next) else {
            return fault(Code::Form, position, next);
        };
        if code == 42 && head_at(bytes, after) == 47 {
            return comment(position, bytes, tail_at(bytes, after));
        }
        next = after;
    }
}

/// The mark that the text at a place begins with, whose first letter this is.
#[tactic(auto, unfolding(crate::specs::Pieces::mark_piece))]
fn mark_piece(code: u32, bytes: &[u8], at: Cursor, next: Cursor) -> Found
    requires at { IsAt bytes.now at }
    requires next { IsFrom bytes.now at next }
    ensures value { cut_of bytes.now result ≡ mark_piece at.position code (letters bytes.now next) (letters bytes.now at) }
    ensures next { IsFrom bytes.now at result.next }
    ensures behind { is_last result.piece ≡ false → next.position.offset ≤ result.next.position.offset }
{
    let second = head_at(bytes, next);
    let third = head_at(bytes, tail_at(bytes, next));
    match mark_of(code, second, third) {
        MarkKind::Nothing => fault(Code::Character, at.position, at),
        MarkKind::Outside(more) => fault(Code::Outside, at.position, skip(bytes, more, next)),
        MarkKind::Mark(mark, more) => {
            token(TokenKind::Mark(mark), at.position, skip(bytes, more, next))
        }
    }
}

/// What a `/` begins.
#[tactic(auto, unfolding(crate::specs::Pieces::slash_piece))]
fn slash_piece(bytes: &[u8], at: Cursor, next: Cursor) -> Found
    requires at { IsAt bytes.now at }
    requires next { IsFrom bytes.now at next }
    ensures value { cut_of bytes.now result ≡ slash_piece at.position (letters bytes.now next) (letters bytes.now at) }
    ensures next { IsFrom bytes.now at result.next }
    ensures behind { is_last result.piece ≡ false → next.position.offset ≤ result.next.position.offset }
{
    let second = head_at(bytes, next);
    if second == 47 {
        let end = past(Class::Line, bytes, tail_at(bytes, next));
        comment(at.position, bytes, end)
    } else if second == 42 {
        block_piece(at.position, bytes, tail_at(bytes, next))
    } else {
        mark_piece(47, bytes, at, next)
    }
}

fn begins_number(code: u32, bytes: &[u8], next: Cursor) -> bool
    requires { IsAt bytes.now next }
    ensures value { result ≡ begins_number code (letters bytes.now next) }
    ensures low { IsTrue result → 46 ≤ code }
    ensures no_slash { IsTrue result → code ≢ 47 }
{
    is_decimal(code) || (code == 46 && is_decimal(head_at(bytes, next)))
}

/// A number, a word or a mark.
#[tactic(auto, unfolding(crate::specs::Pieces::token_piece))]
fn token_piece(
    alloc: Global,
    minus: bool,
    code: u32,
    bytes: &[u8],
    at: Cursor,
    next: Cursor,
) -> Result<Found, NoMemory>
    requires at { IsAt bytes.now at }
    requires next { IsFrom bytes.now at next }
    ensures value { IfOk result (λ f. cut_of bytes.now f ≡ token_piece minus at.position code (letters bytes.now next) (letters bytes.now at)) }
    ensures next { IfOk result (λ f. IsFrom bytes.now at f.next) }
    ensures behind { IfOk result (λ f. is_last f.piece ≡ false → next.position.offset ≤ f.next.position.offset) }
{
    if begins_number(code, bytes, next) {
        return Ok(number_piece(minus, at.position, code, bytes, next));
    }
    match starting(code) {
        Some(first) => word_piece(alloc, at.position, first, bytes, next),
        None => Ok(mark_piece(code, bytes, at, next)),
    }
}

/// What the text begins with at a place, behind the mark `-` or anything else.
#[tactic(auto, unfolding(crate::specs::Pieces::piece_of))]
pub fn piece_of(alloc: Global, minus: bool, bytes: &[u8], at: Cursor) -> Result<Found, NoMemory>
    requires { IsAt bytes.now at }
    ensures value { IfOk result (λ f. cut_of bytes.now f ≡ piece_of minus (letters bytes.now at)) }
    ensures next { IfOk result (λ f. IsFrom bytes.now at f.next) }
    ensures forward { IfOk result (λ f. is_last f.piece ≡ false → at.position.offset < f.next.position.offset) }
{
    let Front::Letter(code, next) = front_at(bytes, at) else {
        return Ok(Found {
            piece: Piece::End,
            next: at,
        });
    };
    if is_white(code) {
        Ok(Found {
            piece: Piece::White,
            next: past(Class::White, bytes, next),
        })
    } else if code == 47 {
        Ok(slash_piece(bytes, at, next))
    } else if code == 34 {
        string_piece(alloc, at.position, bytes, next)
    } else if code == 39 {
        Ok(character_piece(at.position, bytes, next))
    } else {
        token_piece(alloc, minus, code, bytes, at, next)
    }
}

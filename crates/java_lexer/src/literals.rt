// Character and String literals.

ghost use Rattle.std.specs.Prelude.{◌≡◌, ◌^◌, ◌<◌, ◌≤◌, IfOk, IfSome};
ghost use Rattle.java_characters.specs.Letters.{letters, IsAt, IsFrom};
ghost use Rattle.java_characters.specs.Scans.{head, tail, drop_letters};
ghost use Rattle.java_lexer.specs.Found.{cut_of};
ghost use Rattle.java_lexer.specs.Literals.{is_line_end, is_octal, octal_of, simple_of, escape_of, units_of, meaning_of, string_at, string_piece, closed, is_single, character_piece};

use crate::found::{Code, Found, fault, token};
use j2k_base::{NoMemory, Units};
use java_characters::{Cursor, Front, front_at, head_at, skip, tail_at};
use java_tree::{Position, TokenKind};
use std::alloc::Global;

/// What a letter of a String literal means.
#[derive(Clone, Copy)]
pub enum Quoted {
    /// The literal ends.
    Close,
    /// The letter stands in no literal.
    Bad,
    /// The letter is a backslash that begins no escape.
    BadEscape,
    /// A unit, and how many more letters belong to it.
    One(u16, usize),
    /// The two units of a supplementary character.
    Two(u16, u16),
}

pub fn is_line_end(code: u32) -> bool
    ensures { result ≡ is_line_end code }
{
    code == 10 || code == 13
}

fn is_octal(code: u32) -> bool
    ensures { result ≡ is_octal code }
{
    code >= 48 && code <= 55
}

fn octal_of(a: u32, b: u32, c: u32) -> Option<(u16, usize)>
    requires low { 48 ≤ a }
    requires high { a ≤ 55 }
    ensures { result ≡ octal_of a b c }
{
    if !is_octal(b) {
        Some(((a - 48) as u16, 1))
    } else if is_octal(c) && a < 52 {
        Some(((((a - 48) * 8 + (b - 48)) * 8 + (c - 48)) as u16, 3))
    } else {
        Some((((a - 48) * 8 + (b - 48)) as u16, 2))
    }
}

fn simple_of(code: u32) -> Option<(u16, usize)>
    ensures { result ≡ simple_of code }
{
    match code {
        98 => Some((8, 1)),
        116 => Some((9, 1)),
        110 => Some((10, 1)),
        102 => Some((12, 1)),
        114 => Some((13, 1)),
        34 => Some((34, 1)),
        39 => Some((39, 1)),
        92 => Some((92, 1)),
        _ => None,
    }
}

/// The unit of an escape, and how many letters it takes behind its backslash.
#[tactic(auto, unfolding(crate::specs::Literals::escape_of))]
fn escape_of(bytes: &[u8], at: Cursor) -> Option<(u16, usize)>
    requires { IsAt bytes.now at }
    ensures { result ≡ escape_of (letters bytes.now at) }
{
    let first = head_at(bytes, at);
    if !is_octal(first) {
        return simple_of(first);
    }
    let second = tail_at(bytes, at);
    octal_of(
        first,
        head_at(bytes, second),
        head_at(bytes, tail_at(bytes, second)),
    )
}

fn units_of(code: u32) -> Quoted
    requires { code < 0x11_0000 }
    ensures { result ≡ units_of code }
{
    if code < 0x1_0000 {
        Quoted::One(code as u16, 0)
    } else {
        let high = 0xD800 + (code - 0x1_0000) / 0x400;
        let low = 0xDC00 + (code - 0x1_0000) % 0x400;
        Quoted::Two(high as u16, low as u16)
    }
}

#[tactic(auto, unfolding(crate::specs::Literals::meaning_of))]
fn meaning_of(code: u32, bytes: &[u8], next: Cursor) -> Quoted
    requires at { IsAt bytes.now next }
    requires code { code < 0x11_0000 }
    ensures { result ≡ meaning_of code (letters bytes.now next) }
{
    if code == 34 {
        Quoted::Close
    } else if is_line_end(code) {
        Quoted::Bad
    } else if code == 92 {
        match escape_of(bytes, next) {
            Some((unit, more)) => Quoted::One(unit, more),
            None => Quoted::BadEscape,
        }
    } else {
        units_of(code)
    }
}

/// The String literal behind its opening mark.
#[tactic(auto, unfolding(crate::specs::Literals::string_piece))]
pub fn string_piece(
    alloc: Global,
    position: Position,
    bytes: &[u8],
    at: Cursor,
) -> Result<Found, NoMemory>
    requires { IsAt bytes.now at }
    ensures value { IfOk result (λ f. cut_of bytes.now f ≡ string_piece position (letters bytes.now at)) }
    ensures next { IfOk result (λ f. IsFrom bytes.now at f.next) }
{
    let mut units = Units::new(alloc);
    let mut next = at;
    'letters: loop {
        let Front::Letter(code, after) = front_at(bytes, next) else {
            return Ok(fault(Code::Form, position, next));
        };
        match meaning_of(code, bytes, after) {
            Quoted::Close => return Ok(token(TokenKind::Text(units), position, after)),
            Quoted::Bad => return Ok(fault(Code::Form, position, next)),
            Quoted::BadEscape => return Ok(fault(Code::Form, position, after)),
            Quoted::One(unit, more) => {
                units.push(unit)?;
                next = skip(bytes, more, after);
            }
            Quoted::Two(high, low) => {
                units.push(high)?;
                units.push(low)?;
                next = after;
            }
        }
    }
}

fn closed(position: Position, unit: u16, bytes: &[u8], at: Cursor) -> Found
    requires { IsAt bytes.now at }
    ensures value { cut_of bytes.now result ≡ closed position unit (letters bytes.now at) }
    ensures next { IsFrom bytes.now at result.next }
{
    if head_at(bytes, at) == 39 {
        token(TokenKind::Character(unit), position, tail_at(bytes, at))
    } else {
        fault(Code::Form, position, at)
    }
}

fn is_single(code: u32) -> bool
    ensures { result ≡ is_single code }
{
    code != 39 && !is_line_end(code) && code < 0x1_0000
}

/// The character literal behind its opening mark.
#[tactic(auto, unfolding(crate::specs::Literals::character_piece))]
pub fn character_piece(position: Position, bytes: &[u8], at: Cursor) -> Found
    requires { IsAt bytes.now at }
    ensures value { cut_of bytes.now result ≡ character_piece position (letters bytes.now at) }
    ensures next { IsFrom bytes.now at result.next }
{
    let Front::Letter(code, next) = front_at(bytes, at) else {
        return fault(Code::Form, position, at);
    };
    if code == 92 {
        match escape_of(bytes, next) {
            Some((unit, more)) => closed(position, unit, bytes, skip(bytes, more, next)),
            None => fault(Code::Form, position, next),
        }
    } else if is_single(code) {
        closed(position, code as u16, bytes, next)
    } else {
        fault(Code::Form, position, at)
    }
}

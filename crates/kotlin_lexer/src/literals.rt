// Character and String literals.

ghost use Rattle.std.specs.Prelude.{◌≡◌, ◌^◌, ◌<◌, IfOk, IsTrue};
ghost use Rattle.std.specs.Char.{digit_value};
ghost use Rattle.kotlin_characters.specs.Letters.{letters, IsAt, IsFrom};
ghost use Rattle.kotlin_characters.specs.Scans.{drop_while};
ghost use Rattle.kotlin_lexer.specs.Found.{cut_of};
ghost use Rattle.kotlin_lexer.specs.Literals.{mark_of, is_dollar, is_plain, simple_of, is_hex, needs_code, coded, code_of, unit_of, escape_of, meaning_of, escape_rest, string_at, string_piece, closed, character_piece};

use crate::found::{Code, Found, fault, let_go, token, unformed};
use j2k_base::{NoMemory, Units};
use kotlin_characters::{Cursor, Front, front_at, head_at, skip, tail_at};
use kotlin_tree::{Position, TokenKind};
use std::alloc::Global;

/// A kind of literals with a mark at each end.
#[derive(Clone, Copy)]
pub enum Quote {
    /// `'`: a character literal.
    Single,
    /// `"`: a String literal.
    Double,
}

/// What a letter of a literal means.
#[derive(Clone, Copy)]
pub enum Quoted {
    /// The literal ends.
    Close,
    /// The letter stands in no literal.
    Bad,
    /// The letter is a backslash that begins no escape.
    BadEscape,
    /// A unit, and how many more letters belong to it.
    Unit(u16, usize),
}

fn mark_of(quote: Quote) -> u32
    ensures { result ≡ mark_of quote }
{
    match quote {
        Quote::Single => 39,
        Quote::Double => 34,
    }
}

fn is_dollar(quote: Quote, code: u32) -> bool
    ensures { result ≡ is_dollar quote code }
{
    match quote {
        Quote::Single => false,
        Quote::Double => code == 36,
    }
}

fn is_plain(quote: Quote, code: u32) -> bool
    ensures value { result ≡ is_plain quote code }
    ensures unit { IsTrue result → code < 2 ^ 16 }
{
    code >= 32 && code <= 126 && !is_dollar(quote, code)
}

fn simple_of(quote: Quote, code: u32) -> Option<u16>
    ensures { result ≡ simple_of quote code }
{
    match code {
        98 => Some(8),
        116 => Some(9),
        110 => Some(10),
        114 => Some(13),
        92 => Some(92),
        _ => {
            if code == mark_of(quote) || is_dollar(quote, code) {
                Some(code as u16)
            } else {
                None
            }
        }
    }
}

fn is_hex(code: u32) -> bool
    ensures value { result ≡ is_hex code }
    ensures digits { IsTrue result → digit_value code < 16 }
{
    (code >= 48 && code <= 57) || (code >= 65 && code <= 70)
}

fn needs_code(unit: u32) -> bool
    ensures { result ≡ needs_code unit }
{
    let is_printed = unit >= 32 && unit <= 126;
    let has_escape = unit == 8 || unit == 9 || unit == 10 || unit == 13;
    !is_printed && !has_escape
}

fn digit(code: u32) -> u32
    requires { digit_value code < 16 }
    ensures { result ≡ digit_value code }
{
    java_characters::digit(code)
}

/// The unit that four letters write, where each is a hexadecimal digit and the unit has no other spelling.
fn coded(a: u32, b: u32, c: u32, d: u32) -> Option<u16>
    ensures { result ≡ coded a b c d }
{
    if !(is_hex(a) && is_hex(b) && is_hex(c) && is_hex(d)) {
        return None;
    }
    let unit = ((digit(a) * 16 + digit(b)) * 16 + digit(c)) * 16 + digit(d);
    if needs_code(unit) {
        Some(unit as u16)
    } else {
        None
    }
}

/// The unit of a `\u`, by the text behind it.
fn code_of(bytes: &[u8], at: Cursor) -> Option<u16>
    requires { IsAt bytes.now at }
    ensures { result ≡ code_of (letters bytes.now at) }
{
    let second = tail_at(bytes, at);
    let third = tail_at(bytes, second);
    let fourth = tail_at(bytes, third);
    coded(
        head_at(bytes, at),
        head_at(bytes, second),
        head_at(bytes, third),
        head_at(bytes, fourth),
    )
}

fn unit_of(unit: Option<u16>, more: usize) -> Quoted
    ensures { result ≡ unit_of unit more }
{
    match unit {
        Some(unit) => Quoted::Unit(unit, more),
        None => Quoted::BadEscape,
    }
}

/// What a backslash means, by the text behind it.
#[tactic(auto, unfolding(crate::specs::Literals::escape_of))]
fn escape_of(quote: Quote, bytes: &[u8], at: Cursor) -> Quoted
    requires { IsAt bytes.now at }
    ensures { result ≡ escape_of quote (letters bytes.now at) }
{
    let code = head_at(bytes, at);
    if code == 117 {
        unit_of(code_of(bytes, tail_at(bytes, at)), 5)
    } else {
        unit_of(simple_of(quote, code), 1)
    }
}

#[tactic(auto, unfolding(crate::specs::Literals::meaning_of))]
fn meaning_of(quote: Quote, code: u32, bytes: &[u8], next: Cursor) -> Quoted
    requires { IsAt bytes.now next }
    ensures { result ≡ meaning_of quote code (letters bytes.now next) }
{
    if code == mark_of(quote) {
        Quoted::Close
    } else if code == 92 {
        escape_of(quote, bytes, next)
    } else if is_plain(quote, code) {
        Quoted::Unit(code as u16, 0)
    } else {
        Quoted::Bad
    }
}

/// The place behind hexadecimal digits.
fn past_hex(bytes: &[u8], at: Cursor) -> Cursor
    requires { IsAt bytes.now at }
    ensures rest { letters bytes.now result ≡ drop_while is_hex (letters bytes.now at) }
    ensures next { IsFrom bytes.now at result }
{
    let mut next = at;
    'letters: loop {
        match front_at(bytes, next) {
            Front::Letter(letter, after) => {
                if !is_hex(letter as u32) {
                    return next;
                }
                next = after;
            }
            Front::Stop(_) => return next,
        }
    }
}

/// Where an escape fails, behind its backslash.
fn escape_rest(bytes: &[u8], at: Cursor) -> Cursor
    requires { IsAt bytes.now at }
    ensures rest { letters bytes.now result ≡ escape_rest (letters bytes.now at) }
    ensures next { IsFrom bytes.now at result }
{
    if head_at(bytes, at) == 117 {
        past_hex(bytes, tail_at(bytes, at))
    } else {
        at
    }
}

/// The String literal behind its opening mark.
#[tactic(auto, unfolding(crate::specs::Literals::string_piece))]
pub fn string_piece(
    alloc: Global,
    position: Position,
    bytes: &[u8],
    at: Cursor,
) -> Result<Found, NoMemory>
    requires { IsAt bytes.now at }
    ensures value { IfOk result (λ f. cut_of bytes.now f ≡ string_piece position (letters bytes.now at)) }
    ensures next { IfOk result (λ f. IsFrom bytes.now at f.next) }
{
    let mut units = Units::new(alloc);
    let mut next = at;
    'letters: loop {
        let Front::Letter(letter, after) = front_at(bytes, next) else {
            let_go(units);
            return Ok(unformed(Code::Form, position, bytes, next));
        };
        match meaning_of(Quote::Double, letter as u32, bytes, after) {
            Quoted::Close => return Ok(token(TokenKind::Text(units), position, after)),
            Quoted::Bad => {
                let_go(units);
                return Ok(fault(Code::Form, position, next));
            }
            Quoted::BadEscape => {
                let_go(units);
                let end = escape_rest(bytes, after);
                return Ok(unformed(Code::Form, position, bytes, end));
            }
            Quoted::Unit(unit, more) => {
                units.push(unit)?;
                next = skip(bytes, more, after);
            }
        }
    }
}

fn closed(position: Position, unit: u16, bytes: &[u8], at: Cursor) -> Found
    requires { IsAt bytes.now at }
    ensures value { cut_of bytes.now result ≡ closed position unit (letters bytes.now at) }
    ensures next { IsFrom bytes.now at result.next }
{
    if head_at(bytes, at) == 39 {
        token(TokenKind::Character(unit), position, tail_at(bytes, at))
    } else {
        unformed(Code::Form, position, bytes, at)
    }
}

/// The character literal behind its opening mark.
#[tactic(auto, unfolding(crate::specs::Literals::character_piece))]
pub fn character_piece(position: Position, bytes: &[u8], at: Cursor) -> Found
    requires { IsAt bytes.now at }
    ensures value { cut_of bytes.now result ≡ character_piece position (letters bytes.now at) }
    ensures next { IsFrom bytes.now at result.next }
{
    let Front::Letter(letter, next) = front_at(bytes, at) else {
        return unformed(Code::Form, position, bytes, at);
    };
    match meaning_of(Quote::Single, letter as u32, bytes, next) {
        Quoted::Close => fault(Code::Form, position, next),
        Quoted::Bad => fault(Code::Form, position, at),
        Quoted::BadEscape => unformed(Code::Form, position, bytes, escape_rest(bytes, next)),
        Quoted::Unit(unit, more) => closed(position, unit, bytes, skip(bytes, more, next)),
    }
}

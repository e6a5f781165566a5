// Integer literals.

ghost use Rattle.std.specs.Prelude.{◌≡◌, ◌^◌, ◌≤◌, IsTrue};
ghost use Rattle.kotlin_characters.specs.Letters.{letters, IsAt, IsFrom};
ghost use Rattle.kotlin_characters.specs.Scans.{drop_while};
ghost use Rattle.kotlin_lexer.specs.Found.{cut_of};
ghost use Rattle.kotlin_lexer.specs.Numbers.{is_digit, value_with, number_value, integer_piece, long_piece, whole_piece, number_piece};

use crate::found::{Code, Found, fault, token};
use kotlin_characters::{Cursor, Front, front_at, head_at, tail_at};
use kotlin_tree::{Position, TokenKind};

pub fn is_digit(code: u32) -> bool
    ensures { result ≡ is_digit code }
{
    code >= 48 && code <= 57
}

fn value_with(value: u128, code: u32) -> u128
    requires value { value ≤ 2 ^ 64 }
    requires digit { IsTrue (is_digit code) }
    ensures value { result ≡ value_with value code }
    ensures capped { result ≤ 2 ^ 64 }
{
    (value * 10 + (code - 48) as u128).min(0x1_0000_0000_0000_0000)
}

/// The digits at the front of a text.
#[derive(Clone, Copy)]
struct Digits {
    value: u128,
    next: Cursor,
}

/// The digits at the front of a text, behind digits of this value.
fn digits_at(value: u32, bytes: &[u8], at: Cursor) -> Digits
    requires { IsAt bytes.now at }
    ensures value { result.value ≡ number_value value (letters bytes.now at) }
    ensures rest { letters bytes.now result.next ≡ drop_while is_digit (letters bytes.now at) }
    ensures next { IsFrom bytes.now at result.next }
    ensures capped { result.value ≤ 2 ^ 64 }
{
    let mut digits = Digits {
        value: value as u128,
        next: at,
    };
    'digits: loop {
        match front_at(bytes, digits.next) {
            Front::Letter(letter, next) => {
                if !is_digit(letter as u32) {
                    return digits;
                }
                digits = Digits {
                    value: value_with(digits.value, letter as u32),
                    next,
                };
            }
            Front::Stop(_) => return digits,
        }
    }
}

fn integer_piece(position: Position, value: u128, next: Cursor, bytes: &[u8]) -> Found
    ensures value { cut_of bytes.now result ≡ integer_piece position value (letters bytes.now next) }
    ensures next { result.next ≡ next }
{
    if value < 0x8000_0000 {
        token(TokenKind::Integer(value as u32), position, next)
    } else {
        fault(Code::Large, position, next)
    }
}

fn long_piece(position: Position, value: u128, next: Cursor, bytes: &[u8]) -> Found
    ensures value { cut_of bytes.now result ≡ long_piece position value (letters bytes.now next) }
    ensures next { result.next ≡ next }
{
    if value < 0x8000_0000_0000_0000 {
        token(TokenKind::Long(value as u64), position, next)
    } else {
        fault(Code::Large, position, next)
    }
}

fn whole_piece(position: Position, digits: Digits, bytes: &[u8]) -> Found
    requires { IsAt bytes.now digits.next }
    ensures value { cut_of bytes.now result ≡ whole_piece position digits.value (letters bytes.now digits.next) }
    ensures next { IsFrom bytes.now digits.next result.next }
{
    if head_at(bytes, digits.next) == 76 {
        long_piece(position, digits.value, tail_at(bytes, digits.next), bytes)
    } else {
        integer_piece(position, digits.value, digits.next, bytes)
    }
}

/// The integer literal that begins with this digit.
#[tactic(auto, unfolding(crate::specs::Numbers::number_piece))]
pub fn number_piece(position: Position, code: u32, bytes: &[u8], at: Cursor) -> Found
    requires at { IsAt bytes.now at }
    requires digit { IsTrue (is_digit code) }
    ensures value { cut_of bytes.now result ≡ number_piece position code (letters bytes.now at) }
    ensures next { IsFrom bytes.now at result.next }
{
    let digits = digits_at(code - 48, bytes, at);
    if code == 48 && is_digit(head_at(bytes, at)) {
        fault(Code::Form, position, digits.next)
    } else {
        whole_piece(position, digits, bytes)
    }
}

// Numbers, and floating-point literals, which are outside the profile.

ghost use Rattle.std.specs.Prelude.{◌≡◌, ◌≢◌, ◌^◌, ◌≤◌, false};
ghost use Rattle.java_characters.specs.Letters.{letters, IsAt, IsFrom};
ghost use Rattle.java_characters.specs.Scans.{head, tail};
ghost use Rattle.java_lexer.specs.Found.{cut_of};
ghost use Rattle.java_lexer.specs.Numbers.{is_decimal, in_radix, value_with, run_value, run_last, run_rest, decimal_int, decimal_long, int_kind, long_kind, sized, is_long, integer_piece, whole_piece, is_exponent, is_suffix, is_sign, is_float_mark, suffix_piece, power_piece, exponent_piece, scale_piece, fraction_piece, float_piece, decimal_piece, is_hex_mark, is_binary_mark, is_power_mark, hex_power_piece, hex_fraction_piece, hex_end_piece, hex_piece, binary_piece, number_piece};

use crate::found::{Code, Found, fault, token};
use java_characters::{Cursor, Front, digit, front_at, head_at, tail_at};
use java_tree::{Position, TokenKind};

pub fn is_decimal(code: u32) -> bool
    ensures { result ≡ is_decimal code }
{
    code >= 48 && code <= 57
}

fn in_radix(radix: u32, code: u32) -> bool
    ensures { result ≡ in_radix radix code }
{
    code == 95 || digit(code) < radix
}

fn value_with(radix: u32, value: u128, code: u32) -> u128
    requires radix { radix ≤ 16 }
    requires value { value ≤ 2 ^ 64 }
    ensures value { result ≡ value_with radix value code }
    ensures capped { result ≤ 2 ^ 64 }
{
    if code == 95 {
        value
    } else {
        (value * radix as u128 + digit(code) as u128).min(0x1_0000_0000_0000_0000)
    }
}

/// The digits and `_` at the front of a text.
#[derive(Clone, Copy)]
struct Run {
    value: u128,
    last: u32,
    next: Cursor,
}

/// The digits and `_` at the front of a text, behind digits of this value, of which this is the last.
fn run_at(radix: u32, last: u32, value: u32, bytes: &[u8], at: Cursor) -> Run
    requires radix { radix ≤ 16 }
    requires at { IsAt bytes.now at }
    ensures value { result.value ≡ run_value radix value (letters bytes.now at) }
    ensures last { result.last ≡ run_last radix last (letters bytes.now at) }
    ensures rest { letters bytes.now result.next ≡ run_rest radix (letters bytes.now at) }
    ensures next { IsFrom bytes.now at result.next }
    ensures capped { result.value ≤ 2 ^ 64 }
{
    let mut run = Run {
        value: value as u128,
        last,
        next: at,
    };
    'digits: loop {
        match front_at(bytes, run.next) {
            Front::Letter(code, next) => {
                if !in_radix(radix, code) {
                    return run;
                }
                run = Run {
                    value: value_with(radix, run.value, code),
                    last: code,
                    next,
                };
            }
            Front::Stop(_, _) => return run,
        }
    }
}

fn decimal_int(minus: bool, value: u128) -> Option<TokenKind>
    ensures { result ≡ decimal_int minus value }
{
    if value < 0x8000_0000 {
        Some(TokenKind::Integer(value as u32))
    } else if minus && value == 0x8000_0000 {
        Some(TokenKind::LeastInteger)
    } else {
        None
    }
}

fn decimal_long(minus: bool, value: u128) -> Option<TokenKind>
    ensures { result ≡ decimal_long minus value }
{
    if value < 0x8000_0000_0000_0000 {
        Some(TokenKind::Long(value as u64))
    } else if minus && value == 0x8000_0000_0000_0000 {
        Some(TokenKind::LeastLong)
    } else {
        None
    }
}

fn int_kind(minus: bool, radix: u32, value: u128) -> Option<TokenKind>
    ensures { result ≡ int_kind minus radix value }
{
    if radix == 10 {
        decimal_int(minus, value)
    } else if value < 0x1_0000_0000 {
        Some(TokenKind::Integer(value as u32))
    } else {
        None
    }
}

fn long_kind(minus: bool, radix: u32, value: u128) -> Option<TokenKind>
    ensures { result ≡ long_kind minus radix value }
{
    if radix == 10 {
        decimal_long(minus, value)
    } else if value < 0x1_0000_0000_0000_0000 {
        Some(TokenKind::Long(value as u64))
    } else {
        None
    }
}

fn sized(kind: Option<TokenKind>, position: Position, bytes: &[u8], next: Cursor) -> Found
    ensures value { cut_of bytes.now result ≡ sized kind position (letters bytes.now next) }
    ensures next { result.next ≡ next }
{
    match kind {
        Some(kind) => token(kind, position, next),
        None => fault(Code::Large, position, next),
    }
}

fn is_long(code: u32) -> bool
    ensures { result ≡ is_long code }
{
    code == 76 || code == 108
}

fn integer_piece(
    minus: bool,
    position: Position,
    radix: u32,
    value: u128,
    bytes: &[u8],
    at: Cursor,
) -> Found
    requires { IsAt bytes.now at }
    ensures value { cut_of bytes.now result ≡ integer_piece minus position radix value (letters bytes.now at) }
    ensures next { IsFrom bytes.now at result.next }
{
    if is_long(head_at(bytes, at)) {
        sized(
            long_kind(minus, radix, value),
            position,
            bytes,
            tail_at(bytes, at),
        )
    } else {
        sized(int_kind(minus, radix, value), position, bytes, at)
    }
}

fn whole_piece(
    minus: bool,
    position: Position,
    radix: u32,
    last: u32,
    value: u32,
    bytes: &[u8],
    at: Cursor,
) -> Found
    requires radix { radix ≤ 16 }
    requires at { IsAt bytes.now at }
    ensures value { cut_of bytes.now result ≡ whole_piece minus position radix last value (letters bytes.now at) }
    ensures next { IsFrom bytes.now at result.next }
{
    let run = run_at(radix, last, value, bytes, at);
    if run.last == 95 {
        fault(Code::Form, position, run.next)
    } else {
        integer_piece(minus, position, radix, run.value, bytes, run.next)
    }
}

fn is_exponent(code: u32) -> bool
    ensures { result ≡ is_exponent code }
{
    code == 101 || code == 69
}

fn is_suffix(code: u32) -> bool
    ensures { result ≡ is_suffix code }
{
    code == 102 || code == 70 || code == 100 || code == 68
}

fn is_sign(code: u32) -> bool
    ensures { result ≡ is_sign code }
{
    code == 43 || code == 45
}

fn is_float_mark(code: u32) -> bool
    ensures { result ≡ is_float_mark code }
{
    code == 46 || is_exponent(code) || is_suffix(code)
}

fn suffix_piece(position: Position, bytes: &[u8], at: Cursor) -> Found
    requires { IsAt bytes.now at }
    ensures value { cut_of bytes.now result ≡ suffix_piece position (letters bytes.now at) }
    ensures next { IsFrom bytes.now at result.next }
{
    if is_suffix(head_at(bytes, at)) {
        fault(Code::Outside, position, tail_at(bytes, at))
    } else {
        fault(Code::Outside, position, at)
    }
}

fn power_piece(position: Position, bytes: &[u8], at: Cursor) -> Found
    requires { IsAt bytes.now at }
    ensures value { cut_of bytes.now result ≡ power_piece position (letters bytes.now at) }
    ensures next { IsFrom bytes.now at result.next }
{
    if !is_decimal(head_at(bytes, at)) {
        return fault(Code::Form, position, at);
    }
    let run = run_at(10, 0, 0, bytes, at);
    if run.last == 95 {
        fault(Code::Form, position, run.next)
    } else {
        suffix_piece(position, bytes, run.next)
    }
}

fn exponent_piece(position: Position, bytes: &[u8], at: Cursor) -> Found
    requires { IsAt bytes.now at }
    ensures value { cut_of bytes.now result ≡ exponent_piece position (letters bytes.now at) }
    ensures next { IsFrom bytes.now at result.next }
{
    if is_sign(head_at(bytes, at)) {
        power_piece(position, bytes, tail_at(bytes, at))
    } else {
        power_piece(position, bytes, at)
    }
}

fn scale_piece(position: Position, bytes: &[u8], at: Cursor) -> Found
    requires { IsAt bytes.now at }
    ensures value { cut_of bytes.now result ≡ scale_piece position (letters bytes.now at) }
    ensures next { IsFrom bytes.now at result.next }
{
    if is_exponent(head_at(bytes, at)) {
        exponent_piece(position, bytes, tail_at(bytes, at))
    } else {
        suffix_piece(position, bytes, at)
    }
}

fn fraction_piece(position: Position, bytes: &[u8], at: Cursor) -> Found
    requires { IsAt bytes.now at }
    ensures value { cut_of bytes.now result ≡ fraction_piece position (letters bytes.now at) }
    ensures next { IsFrom bytes.now at result.next }
{
    if head_at(bytes, at) == 95 {
        return fault(Code::Form, position, at);
    }
    let run = run_at(10, 0, 0, bytes, at);
    if run.last == 95 {
        fault(Code::Form, position, run.next)
    } else {
        scale_piece(position, bytes, run.next)
    }
}

fn float_piece(position: Position, bytes: &[u8], at: Cursor) -> Found
    requires { IsAt bytes.now at }
    ensures value { cut_of bytes.now result ≡ float_piece position (letters bytes.now at) }
    ensures next { IsFrom bytes.now at result.next }
{
    if head_at(bytes, at) == 46 {
        fraction_piece(position, bytes, tail_at(bytes, at))
    } else {
        scale_piece(position, bytes, at)
    }
}

fn decimal_piece(minus: bool, position: Position, code: u32, bytes: &[u8], at: Cursor) -> Found
    requires at { IsAt bytes.now at }
    requires digit { 48 ≤ code }
    ensures value { cut_of bytes.now result ≡ decimal_piece minus position code (letters bytes.now at) }
    ensures next { IsFrom bytes.now at result.next }
{
    let run = run_at(10, code, 0, bytes, at);
    if is_float_mark(head_at(bytes, run.next)) {
        if run.last == 95 {
            fault(Code::Form, position, run.next)
        } else {
            float_piece(position, bytes, run.next)
        }
    } else if code == 48 {
        whole_piece(minus, position, 8, 48, 0, bytes, at)
    } else {
        whole_piece(minus, position, 10, code, code - 48, bytes, at)
    }
}

fn is_hex_mark(code: u32) -> bool
    ensures { result ≡ is_hex_mark code }
{
    code == 120 || code == 88
}

fn is_binary_mark(code: u32) -> bool
    ensures { result ≡ is_binary_mark code }
{
    code == 98 || code == 66
}

fn is_power_mark(code: u32) -> bool
    ensures { result ≡ is_power_mark code }
{
    code == 112 || code == 80
}

fn hex_power_piece(position: Position, bytes: &[u8], at: Cursor) -> Found
    requires { IsAt bytes.now at }
    ensures value { cut_of bytes.now result ≡ hex_power_piece position (letters bytes.now at) }
    ensures next { IsFrom bytes.now at result.next }
{
    if is_power_mark(head_at(bytes, at)) {
        exponent_piece(position, bytes, tail_at(bytes, at))
    } else {
        fault(Code::Form, position, at)
    }
}

fn hex_fraction_piece(position: Position, bare: bool, bytes: &[u8], at: Cursor) -> Found
    requires { IsAt bytes.now at }
    ensures value { cut_of bytes.now result ≡ hex_fraction_piece position bare (letters bytes.now at) }
    ensures next { IsFrom bytes.now at result.next }
{
    if head_at(bytes, at) == 95 {
        return fault(Code::Form, position, at);
    }
    let run = run_at(16, 0, 0, bytes, at);
    if run.last == 95 || (bare && run.last == 0) {
        fault(Code::Form, position, run.next)
    } else {
        hex_power_piece(position, bytes, run.next)
    }
}

fn hex_end_piece(position: Position, last: u32, value: u128, bytes: &[u8], at: Cursor) -> Found
    requires { IsAt bytes.now at }
    ensures value { cut_of bytes.now result ≡ hex_end_piece position last value (letters bytes.now at) }
    ensures next { IsFrom bytes.now at result.next }
{
    let code = head_at(bytes, at);
    if code == 46 {
        hex_fraction_piece(position, last == 0, bytes, tail_at(bytes, at))
    } else if last == 0 {
        fault(Code::Form, position, at)
    } else if is_power_mark(code) {
        hex_power_piece(position, bytes, at)
    } else {
        integer_piece(false, position, 16, value, bytes, at)
    }
}

fn hex_piece(position: Position, bytes: &[u8], at: Cursor) -> Found
    requires { IsAt bytes.now at }
    ensures value { cut_of bytes.now result ≡ hex_piece position (letters bytes.now at) }
    ensures next { IsFrom bytes.now at result.next }
{
    if head_at(bytes, at) == 95 {
        return fault(Code::Form, position, at);
    }
    let run = run_at(16, 0, 0, bytes, at);
    if run.last == 95 {
        fault(Code::Form, position, run.next)
    } else {
        hex_end_piece(position, run.last, run.value, bytes, run.next)
    }
}

fn binary_piece(position: Position, bytes: &[u8], at: Cursor) -> Found
    requires { IsAt bytes.now at }
    ensures value { cut_of bytes.now result ≡ binary_piece position (letters bytes.now at) }
    ensures next { IsFrom bytes.now at result.next }
{
    if head_at(bytes, at) == 95 {
        return fault(Code::Form, position, at);
    }
    if run_at(2, 0, 0, bytes, at).last == 0 {
        return fault(Code::Form, position, at);
    }
    whole_piece(false, position, 2, 0, 0, bytes, at)
}

/// A number that begins with a digit, or with a point and a digit.
#[tactic(auto, unfolding(crate::specs::Numbers::number_piece))]
pub fn number_piece(minus: bool, position: Position, code: u32, bytes: &[u8], at: Cursor) -> Found
    requires at { IsAt bytes.now at }
    requires digit { 46 ≤ code }
    requires no_slash { code ≢ 47 }
    ensures value { cut_of bytes.now result ≡ number_piece minus position code (letters bytes.now at) }
    ensures next { IsFrom bytes.now at result.next }
{
    if code == 46 {
        return fraction_piece(position, bytes, at);
    }
    let next = head_at(bytes, at);
    if code == 48 && is_hex_mark(next) {
        hex_piece(position, bytes, tail_at(bytes, at))
    } else if code == 48 && is_binary_mark(next) {
        binary_piece(position, bytes, tail_at(bytes, at))
    } else {
        decimal_piece(minus, position, code, bytes, at)
    }
}

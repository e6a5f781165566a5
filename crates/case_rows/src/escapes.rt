// The escapes of a row's text.
ghost use Rattle.std.specs.Prelude.{◌<◌};

use j2k_base::NoMemory;
use std::alloc::Global;

/// What stands next in a text, and the rest of it.
#[derive(Clone, Copy)]
enum Piece<'a> {
    Byte(u8, &'a [u8]),
    /// So many of the part that begins.
    Opens(usize, &'a [u8]),
    Closes(&'a [u8]),
    End,
}

/// The value of a digit, and 0 for another byte.
fn digit(byte: u8) -> u8
    ensures { result < 16 }
{
    match byte {
        b'0'..=b'9' => byte - b'0',
        b'a'..=b'f' => byte - b'a' + 10,
        _ => 0,
    }
}

/// The number before a `:`, and what stands behind the `:`.
fn number(text: &[u8]) -> (usize, &[u8]) {
    let mut value = 0usize;
    for (at, byte) in text.iter().enumerate() {
        if *byte == b':' {
            return (value, &text[at + 1..]);
        }
        value = value
            .saturating_mul(10)
            .saturating_add(usize::from(digit(*byte)));
    }
    (value, &[])
}

/// The byte of two digits.
fn hex(text: &[u8]) -> Piece<'_> {
    match text {
        [high, low, rest @ ..] => Piece::Byte(digit(*high) * 16 + digit(*low), rest),
        _ => Piece::End,
    }
}

/// What a backslash and the text behind it stand for.
fn escaped(text: &[u8]) -> Piece<'_> {
    let Some((letter, rest)) = text.split_first() else {
        return Piece::End;
    };
    match *letter {
        b'n' => Piece::Byte(b'\n', rest),
        b't' => Piece::Byte(b'\t', rest),
        b'r' => Piece::Byte(b'\r', rest),
        b'x' => hex(rest),
        b'(' => {
            let (count, rest) = number(rest);
            Piece::Opens(count, rest)
        }
        b')' => Piece::Closes(rest),
        other => Piece::Byte(other, rest),
    }
}

fn next_piece(text: &[u8]) -> Piece<'_> {
    match text {
        [] => Piece::End,
        [b'\\', rest @ ..] => escaped(rest),
        [first, rest @ ..] => Piece::Byte(*first, rest),
    }
}

/// Appends the bytes from a place on so often that they stand there `count` times.
fn repeat(alloc: Global, out: &mut Vec<u8>, from: usize, count: usize) -> Result<(), NoMemory> {
    let mut part = Vec::new(alloc);
    if let Some(bytes) = out.get(from..) {
        part.extend_from_slice(bytes)?;
    }
    for _ in 1..count {
        out.extend_from_slice(part.as_slice())?;
    }
    Ok(())
}

/// The bytes that the text of a row stands for.
pub fn decoded(alloc: Global, text: &[u8]) -> Result<Vec<u8>, NoMemory> {
    let mut out = Vec::new(alloc);
    let mut rest = text;
    let mut from = 0;
    let mut count = 1;
    for _ in text {
        match next_piece(rest) {
            Piece::Byte(byte, tail) => {
                out.push(byte)?;
                rest = tail;
            }
            Piece::Opens(number, tail) => {
                from = out.len();
                count = number;
                rest = tail;
            }
            Piece::Closes(tail) => {
                repeat(alloc, &mut out, from, count)?;
                rest = tail;
            }
            Piece::End => break,
        }
    }
    Ok(out)
}

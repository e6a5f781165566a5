// How a text goes on.

ghost use Rattle.std.specs.Prelude.{◌≡◌};
ghost use Rattle.kotlin_characters.specs.Letters.{letters, IsAt, IsFrom};
ghost use Rattle.kotlin_characters.specs.Scans.{head, tail, drop_letters};

use crate::letters::{Cursor, Front, front_at};

/// The code of the first letter of the text, 0 where it ends.
pub fn head_at(bytes: &[u8], at: Cursor) -> u32
    requires { IsAt bytes.now at }
    ensures { result ≡ head (letters bytes.now at) }
{
    match front_at(bytes, at) {
        Front::Letter(letter, _) => letter as u32,
        Front::Stop(_) => 0,
    }
}

/// The place behind the first letter of the text.
pub fn tail_at(bytes: &[u8], at: Cursor) -> Cursor
    requires { IsAt bytes.now at }
    ensures rest { letters bytes.now result ≡ tail (letters bytes.now at) }
    ensures next { IsFrom bytes.now at result }
{
    match front_at(bytes, at) {
        Front::Letter(_, next) => next,
        Front::Stop(_) => at,
    }
}

/// The place behind so many letters.
pub fn skip(bytes: &[u8], count: usize, at: Cursor) -> Cursor
    requires { IsAt bytes.now at }
    ensures rest { letters bytes.now result ≡ drop_letters count (letters bytes.now at) }
    ensures next { IsFrom bytes.now at result }
{
    let mut next = at;
    for _ in 0..count {
        next = tail_at(bytes, next);
    }
    next
}

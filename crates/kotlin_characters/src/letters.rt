// The letters of a file: its characters, and where each stands.

ghost use Rattle.std.specs.Prelude.{◌≡◌, ◌-◌, ◌^◌, ◌+◌, ◌<◌, ◌≤◌, length, drop, encode_utf8, true, IfSome};
ghost use Rattle.kotlin_characters.specs.Letters.{first_character, past, letters, seen, start, IsAt, GoesOn};

use java_characters as java;
use kotlin_tree::Position;

/// Why a text ends.
#[derive(Clone, Copy, Debug)]
pub enum Ending {
    /// The file ends.
    File,
    /// A byte stands there that is no UTF-8.
    Byte,
}

/// A place between two characters, and whether a carriage return stands directly before.
#[derive(Clone, Copy, Debug)]
pub struct Cursor {
    pub position: Position,
    pub after_return: bool,
}

/// What a text begins with: its end, or a letter and the place behind it.
#[derive(Clone, Copy, Debug)]
pub enum Front {
    Stop(Ending),
    Letter(char, Cursor),
}

/// The same place in a Java text where no escape begins, since an odd number of backslashes stands before it.
fn without_escapes(at: Cursor) -> java::Cursor
    ensures offset { result.position.offset ≡ at.position.offset }
    ensures line { result.position.line ≡ at.position.line }
    ensures column { result.position.column ≡ at.position.column }
    ensures odd { result.odd ≡ true }
{
    java::Cursor {
        position: java_tree::Position {
            offset: at.position.offset,
            line: at.position.line,
            column: at.position.column,
        },
        after_return: at.after_return,
        odd: true,
    }
}

/// The character that stands at a place. A final U+001A, which a Java text ignores, is one.
fn character_at(bytes: &[u8], at: Cursor) -> Option<char>
    requires { IsAt bytes.now at }
    ensures value { result ≡ first_character (drop at.position.offset bytes.now) }
    ensures room { IfSome result (λ c. at.position.offset + length (encode_utf8 c) ≤ length bytes.now) }
{
    let offset = at.position.offset as usize;
    if offset == bytes.len() {
        return None;
    }
    if bytes[offset] == 0x1A {
        return Some('\u{1A}');
    }
    match java::front_at(bytes, without_escapes(at)) {
        java::Front::Letter(code, _) => char::from_u32(code),
        java::Front::Stop(_, _) => None,
    }
}

fn past(at: Cursor, character: char) -> Cursor
    requires room { at.position.offset + length (encode_utf8 character) < 2 ^ 32 - 1 }
    requires line { at.position.line ≤ at.position.offset + 1 }
    requires column { at.position.column ≤ at.position.offset + 1 }
    ensures value { result ≡ past at character }
    ensures line_in { result.position.line ≤ result.position.offset + 1 }
    ensures column_in { result.position.column ≤ result.position.offset + 1 }
    ensures forward { at.position.offset < result.position.offset }
{
    let taken = character.len_utf8() as u32;
    let ends = character == '\r' || (character == '\n' && !at.after_return);
    let begins = character == '\r' || character == '\n';
    let line_behind = at.position.line + 1;
    let column_behind = at.position.column + taken;
    Cursor {
        position: Position {
            offset: at.position.offset + taken,
            line: if ends { line_behind } else { at.position.line },
            column: if begins { 1 } else { column_behind },
        },
        after_return: character == '\r',
    }
}

/// What the text begins with at a place of the bytes.
pub fn front_at(bytes: &[u8], at: Cursor) -> Front
    requires { IsAt bytes.now at }
    ensures value { letters bytes.now at ≡ seen bytes.now at result }
    ensures goes_on { GoesOn bytes.now at result }
{
    match character_at(bytes, at) {
        Some(character) => Front::Letter(character, past(at, character)),
        None => {
            if (at.position.offset as usize) < bytes.len() {
                Front::Stop(Ending::Byte)
            } else {
                Front::Stop(Ending::File)
            }
        }
    }
}

/// The place where a file begins.
pub fn start() -> Cursor
    ensures { result ≡ start }
{
    Cursor {
        position: Position {
            offset: 0,
            line: 1,
            column: 1,
        },
        after_return: false,
    }
}

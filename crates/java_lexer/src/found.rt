// What a text begins with.

ghost use Rattle.std.specs.Prelude.{◌≡◌};

use java_characters::Cursor;
use java_tree::{Comment, JToken, Position, TokenKind};

/// Why no case applies.
#[derive(Clone, Copy)]
pub enum Code {
    /// L1: a byte that is no UTF-8.
    Utf8,
    /// L2: an eligible `\u` without four hexadecimal digits.
    Escape,
    /// L3: a character that begins no token.
    Character,
    /// L4: a comment or literal that isn't closed or isn't formed.
    Form,
    /// L5: an integer literal that is too large.
    Large,
    /// L6: a word, mark, literal or identifier outside the profile.
    Outside,
}

/// The first place where no case applies, and why.
#[derive(Clone, Copy)]
pub struct LexFault {
    pub code: Code,
    pub position: Position,
}

/// What a text begins with.
#[derive(Drop)]
pub enum Piece {
    /// Nothing: the text ends.
    End,
    Fault(LexFault),
    White,
    Comment(Comment),
    Token(JToken),
}

/// A piece, and the place behind it.
#[derive(Drop)]
pub struct Found {
    pub piece: Piece,
    pub next: Cursor,
}

/// Lets a value go. As a call it costs the proof of the one who calls nothing.
pub fn let_go<T: Drop>(_value: T) {}

pub fn fault(code: Code, position: Position, next: Cursor) -> Found
    ensures { result ≡ record { piece = Piece.Fault (record { code = code; position = position }); next = next } }
{
    Found {
        piece: Piece::Fault(LexFault { code, position }),
        next,
    }
}

pub fn token(kind: TokenKind, position: Position, next: Cursor) -> Found
    ensures { result ≡ record { piece = Piece.Token (record { kind = kind; position = position }); next = next } }
{
    Found {
        piece: Piece::Token(JToken { kind, position }),
        next,
    }
}

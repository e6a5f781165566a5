// What a text begins with.

ghost use Rattle.std.specs.Prelude.{◌≡◌};
ghost use Rattle.kotlin_characters.specs.Letters.{letters, IsAt};
ghost use Rattle.kotlin_lexer.specs.Found.{cut_of, unformed};

use kotlin_characters::{Cursor, Ending, Front, front_at};
use kotlin_tree::{Position, TokenKind};

/// Why no case applies.
#[derive(Clone, Copy)]
pub enum Code {
    /// KL1: a byte that is no UTF-8.
    Utf8,
    /// KL2: a character that begins no token.
    Character,
    /// KL3: a comment or literal that isn't closed or isn't formed.
    Form,
    /// KL4: an integer literal that is too large.
    Large,
}

/// The first place where no case applies, and why.
#[derive(Clone, Copy)]
pub struct LexFault {
    pub code: Code,
    pub position: Position,
}

/// What a text begins with.
#[derive(Drop)]
pub enum Piece {
    /// Nothing: the file ends.
    End(Position),
    Fault(LexFault),
    /// White space within a line, or a comment.
    Blank,
    LineEnd,
    /// `;`
    Semicolon,
    Token(TokenKind, Position),
}

/// A piece, and the place behind it.
#[derive(Drop)]
pub struct Found {
    pub piece: Piece,
    pub next: Cursor,
}

/// Lets a value go. As a call it costs the proof of the one who calls nothing.
pub fn let_go<T: Drop>(_value: T) {}

pub fn fault(code: Code, position: Position, next: Cursor) -> Found
    ensures { result ≡ record { piece = Piece.Fault (record { code = code; position = position }); next = next } }
{
    Found {
        piece: Piece::Fault(LexFault { code, position }),
        next,
    }
}

pub fn token(kind: TokenKind, position: Position, next: Cursor) -> Found
    ensures { result ≡ record { piece = Piece.Token kind position; next = next } }
{
    Found {
        piece: Piece::Token(kind, position),
        next,
    }
}

/// A form that begins at a position and fails at a place. Where the text is cut there, no more is
/// known of it, and the fault is the byte that cuts.
pub fn unformed(code: Code, position: Position, bytes: &[u8], at: Cursor) -> Found
    requires { IsAt bytes.now at }
    ensures value { cut_of bytes.now result ≡ unformed code position (letters bytes.now at) }
    ensures next { result.next ≡ at }
{
    match front_at(bytes, at) {
        Front::Stop(Ending::Byte) => fault(Code::Utf8, at.position, at),
        Front::Stop(Ending::File) => fault(code, position, at),
        Front::Letter(_, _) => fault(code, position, at),
    }
}

// Words, and names in backticks.

ghost use Rattle.std.specs.Prelude.{◌≡◌, ◌++◌, ◌==◌, not, encode_utf8, IfOk};
ghost use Rattle.kotlin_characters.specs.Letters.{letters, IsAt, IsFrom};
ghost use Rattle.kotlin_lexer.specs.Found.{cut_of};
ghost use Rattle.kotlin_lexer.specs.Names.{is_start, is_continue, name_of, is_named, word_rest, plain_name, named, word_piece, quoted_name, quoted_piece};

use crate::found::{Code, Found, fault, let_go, token, unformed};
use j2k_base::{Name, NoMemory};
use kotlin_characters::{Cursor, Front, front_at, head_at, tail_at};
use kotlin_keywords::{WordKind, word_kind};
use kotlin_tree::{Position, TokenKind};
use std::alloc::Global;

pub fn is_start(character: char) -> bool
    ensures { result ≡ is_start character }
{
    character == '_' || unicode_ident::is_xid_start(character)
}

fn is_continue(character: char) -> bool
    ensures { result ≡ is_continue character }
{
    unicode_ident::is_xid_continue(character)
}

/// A longest word, and whether it has a character other than `_`.
#[derive(Drop)]
struct WordRead {
    name: Name,
    is_named: bool,
    next: Cursor,
}

fn word_at(alloc: Global, first: char, bytes: &[u8], at: Cursor) -> Result<WordRead, NoMemory>
    requires { IsAt bytes.now at }
    ensures name { IfOk result (λ w. w.name ≡ encode_utf8 first ++ name_of (letters bytes.now at)) }
    ensures named { IfOk result (λ w. w.is_named ≡ is_named (not (first == 95)) (letters bytes.now at)) }
    ensures rest { IfOk result (λ w. letters bytes.now w.next ≡ word_rest (letters bytes.now at)) }
    ensures next { IfOk result (λ w. IsFrom bytes.now at w.next) }
{
    let mut name = Name::new(alloc);
    name.push(first)?;
    let mut is_named = first != '_';
    let mut next = at;
    'letters: loop {
        let Front::Letter(letter, after) = front_at(bytes, next) else {
            return Ok(WordRead {
                name,
                is_named,
                next,
            });
        };
        if !is_continue(letter) {
            return Ok(WordRead {
                name,
                is_named,
                next,
            });
        }
        name.push(letter)?;
        is_named = is_named || letter != '_';
        next = after;
    }
}

fn plain_name(is_named: bool, name: Name, position: Position, next: Cursor, bytes: &[u8]) -> Found
    ensures value { cut_of bytes.now result ≡ plain_name is_named position name (letters bytes.now next) }
    ensures next { result.next ≡ next }
{
    if is_named {
        token(TokenKind::Name(name), position, next)
    } else {
        let_go(name);
        fault(Code::Character, position, next)
    }
}

fn named(kind: WordKind, position: Position, next: Cursor, bytes: &[u8]) -> Found
    ensures value { cut_of bytes.now result ≡ named kind position (letters bytes.now next) }
    ensures next { result.next ≡ next }
{
    match kind {
        WordKind::Keyword(keyword) => token(TokenKind::Keyword(keyword), position, next),
        WordKind::Word(word) => token(TokenKind::Word(word), position, next),
    }
}

/// The word that begins with this character.
#[tactic(auto, unfolding(crate::specs::Names::word_piece))]
pub fn word_piece(
    alloc: Global,
    position: Position,
    first: char,
    bytes: &[u8],
    at: Cursor,
) -> Result<Found, NoMemory>
    requires { IsAt bytes.now at }
    ensures value { IfOk result (λ f. cut_of bytes.now f ≡ word_piece position first (letters bytes.now at)) }
    ensures next { IfOk result (λ f. IsFrom bytes.now at f.next) }
{
    let word = word_at(alloc, first, bytes, at)?;
    match word_kind(word.name.as_bytes()) {
        Some(kind) => {
            let next = word.next;
            let_go(word);
            Ok(named(kind, position, next, bytes))
        }
        None => Ok(plain_name(word.is_named, word.name, position, word.next, bytes)),
    }
}

fn quoted_name(name: Name, position: Position, bytes: &[u8], at: Cursor) -> Found
    requires { IsAt bytes.now at }
    ensures value { cut_of bytes.now result ≡ quoted_name position name (letters bytes.now at) }
    ensures next { IsFrom bytes.now at result.next }
{
    if head_at(bytes, at) == 96 {
        token(TokenKind::Name(name), position, tail_at(bytes, at))
    } else {
        let_go(name);
        unformed(Code::Character, position, bytes, at)
    }
}

/// The identifier in backticks, behind the first of them.
#[tactic(auto, unfolding(crate::specs::Names::quoted_piece))]
pub fn quoted_piece(
    alloc: Global,
    position: Position,
    bytes: &[u8],
    at: Cursor,
) -> Result<Found, NoMemory>
    requires { IsAt bytes.now at }
    ensures value { IfOk result (λ f. cut_of bytes.now f ≡ quoted_piece position (letters bytes.now at)) }
    ensures next { IfOk result (λ f. IsFrom bytes.now at f.next) }
{
    let Front::Letter(first, next) = front_at(bytes, at) else {
        return Ok(unformed(Code::Character, position, bytes, at));
    };
    if !is_start(first) {
        return Ok(fault(Code::Character, position, at));
    }
    let word = word_at(alloc, first, bytes, next)?;
    Ok(quoted_name(word.name, position, bytes, word.next))
}

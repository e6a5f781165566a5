// Words of a text.

ghost use Rattle.std.specs.Prelude.{◌≡◌, ◌++◌, ◌==◌, true, false, encode_utf8, IfOk, IfSome, IfNone};
ghost use Rattle.java_characters.specs.Letters.{letters, IsAt, IsFrom};
ghost use Rattle.java_lexer.specs.Found.{cut_of};
ghost use Rattle.java_lexer.specs.Names.{is_start, is_continue, name_of, dollar_in, word_rest, named, word_piece};

use crate::found::{Code, Found, fault, let_go, token};
use j2k_base::{Name, NoMemory};
use java_characters::{Cursor, Front, front_at};
use java_keywords::{WordKind, word_kind};
use java_tree::{Position, TokenKind};
use std::alloc::Global;

/// The character, where a word may begin with it.
#[tactic(auto, unfolding(crate::specs::Names::is_start))]
pub fn starting(code: u32) -> Option<char>
    ensures some { IfSome result (λ ch. (ch ≡ code) × (is_start code ≡ true)) }
    ensures none { IfNone result (is_start code ≡ false) }
{
    let ch = char::from_u32(code)?;
    if code == 36 || code == 95 || unicode_ident::is_xid_start(ch) {
        Some(ch)
    } else {
        None
    }
}

/// The character, where a word may go on with it.
#[tactic(auto, unfolding(crate::specs::Names::is_continue))]
fn continuing(code: u32) -> Option<char>
    ensures some { IfSome result (λ ch. (ch ≡ code) × (is_continue code ≡ true)) }
    ensures none { IfNone result (is_continue code ≡ false) }
{
    let ch = char::from_u32(code)?;
    if code == 36 || unicode_ident::is_xid_continue(ch) {
        Some(ch)
    } else {
        None
    }
}

/// A longest word.
#[derive(Drop)]
struct WordRead {
    name: Name,
    dollar: bool,
    next: Cursor,
}

fn word_at(alloc: Global, first: char, bytes: &[u8], at: Cursor) -> Result<WordRead, NoMemory>
    requires { IsAt bytes.now at }
    ensures name { IfOk result (λ w. w.name ≡ encode_utf8 first ++ name_of (letters bytes.now at)) }
    ensures dollar { IfOk result (λ w. w.dollar ≡ dollar_in (first == 36) (letters bytes.now at)) }
    ensures rest { IfOk result (λ w. letters bytes.now w.next ≡ word_rest (letters bytes.now at)) }
    ensures next { IfOk result (λ w. IsFrom bytes.now at w.next) }
{
    let mut name = Name::new(alloc);
    name.push(first)?;
    let mut dollar = first == '$';
    let mut next = at;
    'letters: loop {
        let Front::Letter(code, after) = front_at(bytes, next) else {
            return Ok(WordRead { name, dollar, next });
        };
        let Some(ch) = continuing(code) else {
            return Ok(WordRead { name, dollar, next });
        };
        name.push(ch)?;
        dollar = dollar || code == 36;
        next = after;
    }
}

fn named(
    kind: Option<WordKind>,
    name: Name,
    position: Position,
    next: Cursor,
    bytes: &[u8],
) -> Found
    ensures value { cut_of bytes.now result ≡ named position kind name (letters bytes.now next) }
    ensures next { result.next ≡ next }
{
    match kind {
        Some(WordKind::Keyword(keyword)) => {
            let_go(name);
            token(TokenKind::Keyword(keyword), position, next)
        }
        Some(WordKind::Outside) => {
            let_go(name);
            fault(Code::Outside, position, next)
        }
        None => token(TokenKind::Name(name), position, next),
    }
}

/// The word that begins with this character.
#[tactic(auto, unfolding(crate::specs::Names::word_piece))]
pub fn word_piece(
    alloc: Global,
    position: Position,
    first: char,
    bytes: &[u8],
    at: Cursor,
) -> Result<Found, NoMemory>
    requires { IsAt bytes.now at }
    ensures value { IfOk result (λ f. cut_of bytes.now f ≡ word_piece position first (letters bytes.now at)) }
    ensures next { IfOk result (λ f. IsFrom bytes.now at f.next) }
{
    let word = word_at(alloc, first, bytes, at)?;
    if word.dollar {
        let next = word.next;
        let_go(word);
        return Ok(fault(Code::Outside, position, next));
    }
    let kind = word_kind(word.name.as_bytes());
    Ok(named(kind, word.name, position, word.next, bytes))
}

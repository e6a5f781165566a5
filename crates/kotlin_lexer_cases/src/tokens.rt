// Tokens and their places as texts.

use j2k_base::{NoMemory, Units};
use kotlin_tree::{Gap, KTokens, TokenKind};
use std::fmt::Write;

fn put_units(units: &Units, out: &mut String) -> Result<(), NoMemory> {
    out.push('"')?;
    for unit in units.as_slice() {
        write!(out, "{unit},")?;
    }
    Ok(())
}

fn put_kind(kind: &TokenKind, out: &mut String) -> Result<(), NoMemory> {
    match kind {
        TokenKind::Mark(mark) => write!(out, "{mark:?}")?,
        TokenKind::Keyword(word) => write!(out, "{word:?}")?,
        TokenKind::Word(word) => write!(out, "~{word:?}")?,
        TokenKind::Name(name) => out.push_str(name.as_str())?,
        TokenKind::Integer(value) => write!(out, "{value}")?,
        TokenKind::Long(value) => write!(out, "{value}L")?,
        TokenKind::Character(unit) => write!(out, "'{unit}")?,
        TokenKind::Text(units) => put_units(units, out)?,
        TokenKind::End => out.push('.')?,
    }
    Ok(())
}

fn put_gap(gap: Gap, out: &mut String) -> Result<(), NoMemory> {
    match gap {
        Gap::Plain => {}
        Gap::Line => out.push_str("/ ")?,
        Gap::Semicolon => out.push_str("; ")?,
    }
    Ok(())
}

/// Keywords and marks by their names, words that are also names behind `~`, names and numbers by themselves, a character by
/// its unit behind `'`, a text by its units behind `"`, the end of the file as `.`; before each `/` for line ends and `;`.
pub fn put_tokens(tokens: &KTokens, out: &mut String) -> Result<(), NoMemory> {
    let mut before = "";
    for token in tokens.as_slice() {
        out.push_str(before)?;
        put_gap(token.gap, out)?;
        put_kind(&token.kind, out)?;
        before = " ";
    }
    Ok(())
}

/// The places of the tokens.
pub fn put_places(tokens: &KTokens, out: &mut String) -> Result<(), NoMemory> {
    for token in tokens.as_slice() {
        let place = token.position;
        write!(out, "{} {}:{},", place.offset, place.line, place.column)?;
    }
    Ok(())
}

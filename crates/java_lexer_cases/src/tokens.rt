// Tokens and their places as texts.

use j2k_base::{NoMemory, Units};
use java_tree::{TokenKind, Tokens};
use std::fmt::Write;

fn put_units(units: &Units, out: &mut String) -> Result<(), NoMemory> {
    out.push('"')?;
    for unit in units.as_slice() {
        write!(out, "{unit},")?;
    }
    Ok(())
}

fn put_kind(kind: &TokenKind, out: &mut String) -> Result<(), NoMemory> {
    match kind {
        TokenKind::Mark(mark) => write!(out, "{mark:?}")?,
        TokenKind::Keyword(word) => write!(out, "{word:?}")?,
        TokenKind::Name(name) => out.push_str(name.as_str())?,
        TokenKind::Integer(value) => write!(out, "{value}")?,
        TokenKind::LeastInteger => out.push_str("LeastInteger")?,
        TokenKind::Long(value) => write!(out, "{value}L")?,
        TokenKind::LeastLong => out.push_str("LeastLong")?,
        TokenKind::Character(unit) => write!(out, "'{unit}")?,
        TokenKind::Text(units) => put_units(units, out)?,
    }
    Ok(())
}

/// Keywords and marks by their names, identifiers and numbers by themselves, a character by its unit behind `'`, a text by
/// its units behind `"`.
pub fn put_tokens(tokens: &Tokens, out: &mut String) -> Result<(), NoMemory> {
    let mut before = "";
    for token in tokens.list.as_slice() {
        out.push_str(before)?;
        put_kind(&token.kind, out)?;
        before = " ";
    }
    Ok(())
}

/// The places of the tokens, and those of the comments with their ends.
pub fn put_places(tokens: &Tokens, out: &mut String) -> Result<(), NoMemory> {
    for token in tokens.list.as_slice() {
        let place = token.position;
        write!(out, "{} {}:{},", place.offset, place.line, place.column)?;
    }
    for comment in tokens.comments.as_slice() {
        let place = comment.position;
        write!(
            out,
            "{}-{} {}:{},",
            place.offset, comment.end, place.line, place.column
        )?;
    }
    Ok(())
}

// The lexer and what it stands on: texts with their tokens or their first fault, places, letters and words.
#![tactic(auto)]

mod tokens;

use case_rows::answer_rows;
use j2k_base::{Fault, NoMemory, Stop, Text};
use java_characters::{head_at, skip, start};
use java_keywords::{WordKind, word_kind};
use java_lexer::lex;
use java_tree::Tokens;
use std::alloc::Global;
use std::fmt::Write;
use std::io;
use tokens::{put_places, put_tokens};

fn put_fault(fault: &Fault, out: &mut String) -> Result<(), NoMemory> {
    let place = &fault.place;
    write!(
        out,
        "{:?}{} {} {}:{}",
        fault.phase, fault.number, place.offset, place.line, place.column
    )?;
    Ok(())
}

fn lexed(alloc: Global, text: &[u8]) -> Result<Tokens, Stop> {
    let path = Text::new(alloc);
    if text.len() < 100_000 {
        lex(alloc, &path, text)
    } else {
        Err(Stop::Memory)
    }
}

fn put_lexed(
    found: &Result<Tokens, Stop>,
    has_places: bool,
    out: &mut String,
) -> Result<(), NoMemory> {
    match found {
        Ok(tokens) if has_places => put_places(tokens, out),
        Ok(tokens) => put_tokens(tokens, out),
        Err(Stop::Fault(fault)) => put_fault(fault, out),
        Err(Stop::Memory) => Err(NoMemory),
    }
}

/// The letters of a short text, and 0 at its end.
fn put_letters(text: &[u8], out: &mut String) -> Result<(), NoMemory> {
    if text.len() >= 10_000 {
        out.push_str("too long")?;
        return Ok(());
    }
    let mut before = "";
    for number in 0..text.len() {
        let code = head_at(text, skip(text, number, start()));
        write!(out, "{before}{code}")?;
        if code == 0 {
            break;
        }
        before = " ";
    }
    Ok(())
}

fn put_word(found: Option<WordKind>, out: &mut String) -> Result<(), NoMemory> {
    match found {
        Some(WordKind::Keyword(word)) => write!(out, "{word:?}")?,
        Some(WordKind::Outside) => out.push_str("outside")?,
        None => out.push_str("none")?,
    }
    Ok(())
}

fn put_answer(alloc: Global, word: &str, text: &[u8], out: &mut String) -> Result<(), NoMemory> {
    match word {
        "lex" => put_lexed(&lexed(alloc, text), false, out),
        "places" => put_lexed(&lexed(alloc, text), true, out),
        "letters" => put_letters(text, out),
        "word" => put_word(word_kind(text), out),
        _ => {
            out.push_str("no such call")?;
            Ok(())
        }
    }
}

fn main(rt: HostRuntime) -> io::Result<()> {
    answer_rows(
        &rt,
        |alloc, word, text, out| put_answer(alloc, word, text, out),
    )
}

// The lexer and what it stands on: texts with their tokens or their first fault, places, words and brackets.
#![tactic(auto)]

mod tokens;

use case_rows::answer_rows;
use j2k_base::{Fault, NoMemory, Stop, Text};
use kotlin_brackets::{Flaw, Flawed, first_flaw};
use kotlin_keywords::{WordKind, word_kind};
use kotlin_lexer::lex;
use kotlin_tree::KTokens;
use std::alloc::Global;
use std::fmt::Write;
use std::io;
use tokens::{put_places, put_tokens};

fn put_fault(fault: &Fault, out: &mut String) -> Result<(), NoMemory> {
    let place = &fault.place;
    write!(
        out,
        "{:?}{} {} {}:{}",
        fault.phase, fault.number, place.offset, place.line, place.column
    )?;
    Ok(())
}

fn lexed(alloc: Global, text: &[u8]) -> Result<KTokens, Stop> {
    let path = Text::new(alloc);
    if text.len() < 100_000 {
        lex(alloc, &path, text)
    } else {
        Err(Stop::Memory)
    }
}

fn put_lexed(
    found: &Result<KTokens, Stop>,
    has_places: bool,
    out: &mut String,
) -> Result<(), NoMemory> {
    match found {
        Ok(tokens) if has_places => put_places(tokens, out),
        Ok(tokens) => put_tokens(tokens, out),
        Err(Stop::Fault(fault)) => put_fault(fault, out),
        Err(Stop::Memory) => Err(NoMemory),
    }
}

fn put_flaw(found: Option<Flawed>, out: &mut String) -> Result<(), NoMemory> {
    match found {
        Some(flawed) => match flawed.flaw {
            Flaw::Lonely => write!(out, "lonely {}", flawed.number)?,
            Flaw::TooDeep => write!(out, "too deep {}", flawed.number)?,
        },
        None => out.push_str("none")?,
    }
    Ok(())
}

fn put_brackets(
    alloc: Global,
    found: &Result<KTokens, Stop>,
    out: &mut String,
) -> Result<(), NoMemory> {
    match found {
        Ok(tokens) if tokens.len() < 1_000_000 => {
            put_flaw(first_flaw(alloc, tokens.as_slice())?, out)
        }
        _ => Err(NoMemory),
    }
}

fn put_word(found: Option<WordKind>, out: &mut String) -> Result<(), NoMemory> {
    match found {
        Some(WordKind::Keyword(word)) => write!(out, "keyword {word:?}")?,
        Some(WordKind::Word(word)) => write!(out, "word {word:?}")?,
        None => out.push_str("none")?,
    }
    Ok(())
}

fn put_answer(alloc: Global, word: &str, text: &[u8], out: &mut String) -> Result<(), NoMemory> {
    match word {
        "lex" => put_lexed(&lexed(alloc, text), false, out),
        "places" => put_lexed(&lexed(alloc, text), true, out),
        "brackets" => put_brackets(alloc, &lexed(alloc, text), out),
        "word" => put_word(word_kind(text), out),
        _ => {
            out.push_str("no such call")?;
            Ok(())
        }
    }
}

fn main(rt: HostRuntime) -> io::Result<()> {
    answer_rows(
        &rt,
        |alloc, word, text, out| put_answer(alloc, word, text, out),
    )
}

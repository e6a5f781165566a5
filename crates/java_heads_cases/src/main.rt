// The parts of the parser of files: a row is a call and the text that it is given.
#![tactic(auto)]

mod ahead;
mod members;
mod statements;

use ahead::{put_ahead, put_cut, put_partners, put_run};
use case_rows::answer_rows;
use j2k_base::{NoMemory, Stop, Text};
use java_body_cuts::raw;
use java_lexer::lex;
use java_token_cursor::{Pieces, pieces};
use java_tree::{JToken, Tokens};
use members::{put_before_block, put_constants, put_member, put_top, put_type};
use statements::{put_for, put_label, put_lock, put_simple};
use std::alloc::Global;
use std::fmt::Write;
use std::io;

fn lexed(alloc: Global, text: &[u8]) -> Result<Tokens, Stop> {
    let path = Text::new(alloc);
    if text.len() < 100_000 {
        lex(alloc, &path, text)
    } else {
        Err(Stop::Memory)
    }
}

fn put_none(out: &mut String) -> Result<(), NoMemory> {
    out.push_str("none")?;
    Ok(())
}

/// What a head is, and the levels of the bodies in it.
fn put_head(kind: &str, levels: &[usize], out: &mut String) -> Result<(), NoMemory> {
    out.push_str(kind)?;
    for level in levels {
        write!(out, " {level}")?;
    }
    Ok(())
}

/// Of a head, whose bodies count with the pieces before them.
fn put_of_head<'a>(
    alloc: Global,
    word: &str,
    pieces: Pieces<'a>,
    out: &mut String,
) -> Result<(), NoMemory> {
    match word {
        "simple" => put_simple(alloc, pieces, out),
        "for" => put_for(alloc, pieces, out),
        "lock" => put_lock(alloc, pieces, out),
        "label" => put_label(alloc, pieces, out),
        "member" => put_member(alloc, pieces, out),
        "top" => put_top(alloc, pieces, out),
        "block" => put_before_block(alloc, pieces, out),
        "type" => put_type(alloc, pieces, out),
        "constants" => put_constants(alloc, pieces, out),
        _ => {
            out.push_str("no such call")?;
            Ok(())
        }
    }
}

fn put_of_tokens(
    alloc: Global,
    word: &str,
    tokens: &[JToken],
    out: &mut String,
) -> Result<(), NoMemory> {
    let Ok(end) = u32::try_from(tokens.len()) else {
        return Err(NoMemory);
    };
    match word {
        "brackets" => put_partners(alloc, tokens, out),
        "cut" => put_cut(alloc, raw(alloc, tokens)?.as_slice(), out),
        "ahead" => put_ahead(raw(alloc, tokens)?.as_slice(), out),
        "run" => put_run(raw(alloc, tokens)?.as_slice(), out),
        _ => put_of_head(alloc, word, pieces(alloc, tokens, end)?.as_slice(), out),
    }
}

fn put_answer(alloc: Global, word: &str, text: &[u8], out: &mut String) -> Result<(), NoMemory> {
    match &lexed(alloc, text) {
        Ok(tokens) => put_of_tokens(alloc, word, tokens.list.as_slice(), out),
        Err(Stop::Fault(_)) => {
            out.push_str("no tokens")?;
            Ok(())
        }
        Err(Stop::Memory) => Err(NoMemory),
    }
}

fn main(rt: HostRuntime) -> io::Result<()> {
    answer_rows(&rt, |alloc, word, text, out| {
        put_answer(alloc, word, text, out)
    })
}

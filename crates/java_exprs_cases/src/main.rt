// The grammar of expressions: a row is a text, and its answer the shape of its tree.
#![tactic(auto)]

mod names;
mod shapes;
mod signs;

use case_rows::answer_rows;
use j2k_base::{NoMemory, Stop, Text};
use java_exprs::parse_expr;
use java_lexer::lex;
use java_tree::{JExpr, Tokens};
use shapes::put_shape;
use sqlite_items::Boxed;
use std::alloc::Global;
use std::io;

fn lexed(alloc: Global, text: &[u8]) -> Result<Tokens, Stop> {
    let path = Text::new(alloc);
    if text.len() < 100_000 {
        lex(alloc, &path, text)
    } else {
        Err(Stop::Memory)
    }
}

/// The tree that the tokens spell.
fn parsed(alloc: Global, tokens: &Tokens) -> Result<Option<Boxed<JExpr>>, NoMemory> {
    let Ok(end) = u32::try_from(tokens.list.len()) else {
        return Ok(None);
    };
    match parse_expr(alloc, tokens, 0, end)? {
        Some(tree) => Ok(Some(Boxed::new(alloc, tree)?)),
        None => Ok(None),
    }
}

fn put_found(found: Option<&JExpr>, has_shape: bool, out: &mut String) -> Result<(), NoMemory> {
    match found {
        Some(tree) if has_shape => put_shape(out, tree)?,
        Some(_) => out.push_str("tree")?,
        None => out.push_str("none")?,
    }
    Ok(())
}

fn put_parsed(
    alloc: Global,
    text: &[u8],
    has_shape: bool,
    out: &mut String,
) -> Result<(), NoMemory> {
    match &lexed(alloc, text) {
        Ok(tokens) => match &parsed(alloc, tokens)? {
            Some(tree) => put_found(Some(tree.get()), has_shape, out),
            None => put_found(None, has_shape, out),
        },
        Err(Stop::Fault(_)) => {
            out.push_str("no tokens")?;
            Ok(())
        }
        Err(Stop::Memory) => Err(NoMemory),
    }
}

fn put_answer(alloc: Global, word: &str, text: &[u8], out: &mut String) -> Result<(), NoMemory> {
    match word {
        "shape" => put_parsed(alloc, text, true, out),
        "tree" => put_parsed(alloc, text, false, out),
        _ => {
            out.push_str("no such call")?;
            Ok(())
        }
    }
}

fn main(rt: HostRuntime) -> io::Result<()> {
    answer_rows(&rt, |alloc, word, text, out| {
        put_answer(alloc, word, text, out)
    })
}

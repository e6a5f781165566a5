// Trees spelled again: a row is a text, and its answer whether the tokens of its tree are those that were read.
#![tactic(auto)]

use case_rows::answer_rows;
use j2k_base::{NoMemory, Stop, Text};
use java_exprs::parse_expr;
use java_lexer::lex;
use java_parser::parse;
use java_tree::{JExpr, JToken, Tokens};
use java_unit_grammar::JUnit;
use sqlite_items::Boxed;
use std::alloc::Global;
use std::fmt::Write;
use std::io;

fn lexed(alloc: Global, text: &[u8]) -> Result<Tokens, Stop> {
    let path = Text::from_str(alloc, "A.java")?;
    if text.len() < 100_000 {
        lex(alloc, &path, text)
    } else {
        Err(Stop::Memory)
    }
}

/// Whether two tokens are the same, at the same place.
fn is_same(alloc: Global, a: &JToken, b: &JToken) -> Result<bool, NoMemory> {
    let left = format!(in alloc; "{a:?}")?;
    let right = format!(in alloc; "{b:?}")?;
    Ok(left.as_str() == right.as_str())
}

/// How many tokens there are, or the number of the first that is another.
fn put_compared(
    alloc: Global,
    read: &[JToken],
    spelled: &[JToken],
    out: &mut String,
) -> Result<(), NoMemory> {
    for (number, (a, b)) in read.iter().zip(spelled).enumerate() {
        if !is_same(alloc, a, b)? {
            write!(out, "another at {number}, ")?;
            break;
        }
    }
    if read.len() != spelled.len() {
        write!(out, "{} read, ", read.len())?;
    }
    write!(out, "{} tokens", spelled.len())?;
    Ok(())
}

fn parsed(alloc: Global, text: &[u8]) -> Result<JUnit, Stop> {
    let path = Text::from_str(alloc, "A.java")?;
    if text.len() < 100_000 {
        parse(alloc, lex(alloc, &path, text)?)
    } else {
        Err(Stop::Memory)
    }
}

/// The tokens of the tree of a file.
fn spelled_file(alloc: Global, text: &[u8]) -> Result<Tokens, Stop> {
    let unit = parsed(alloc, text)?;
    Ok(java_unit_printer::spell(alloc, &unit)?)
}

fn put_file(
    alloc: Global,
    read: &Tokens,
    spelled: &Result<Tokens, Stop>,
    out: &mut String,
) -> Result<(), NoMemory> {
    match spelled {
        Ok(spelled) => {
            put_compared(alloc, read.list.as_slice(), spelled.list.as_slice(), out)?;
            write!(
                out,
                ", {} comments, {}",
                spelled.comments.len(),
                spelled.path.as_str()
            )?;
            Ok(())
        }
        Err(Stop::Fault(_)) => put_none(out),
        Err(Stop::Memory) => Err(NoMemory),
    }
}

/// The tree that the tokens spell.
fn tree(alloc: Global, tokens: &Tokens) -> Result<Option<Boxed<JExpr>>, NoMemory> {
    let Ok(end) = u32::try_from(tokens.list.len()) else {
        return Ok(None);
    };
    match parse_expr(alloc, tokens, 0, end)? {
        Some(tree) => Ok(Some(Boxed::new(alloc, tree)?)),
        None => Ok(None),
    }
}

fn put_expr(
    alloc: Global,
    read: &[JToken],
    tree: &Option<Boxed<JExpr>>,
    out: &mut String,
) -> Result<(), NoMemory> {
    match tree {
        Some(tree) => {
            let spelled = java_expr_printer::spell(alloc, read, tree.get())?;
            put_compared(alloc, read, spelled.as_slice(), out)
        }
        None => put_none(out),
    }
}

fn put_none(out: &mut String) -> Result<(), NoMemory> {
    out.push_str("none")?;
    Ok(())
}

fn put_answer(alloc: Global, word: &str, text: &[u8], out: &mut String) -> Result<(), NoMemory> {
    match &lexed(alloc, text) {
        Ok(read) if word == "file" => put_file(alloc, read, &spelled_file(alloc, text), out),
        Ok(read) => put_expr(alloc, read.list.as_slice(), &tree(alloc, read)?, out),
        Err(Stop::Fault(_)) => put_none(out),
        Err(Stop::Memory) => Err(NoMemory),
    }
}

fn main(rt: HostRuntime) -> io::Result<()> {
    answer_rows(&rt, |alloc, word, text, out| {
        put_answer(alloc, word, text, out)
    })
}

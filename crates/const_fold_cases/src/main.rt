// The values of constant expressions: a row is an operator, a cast or a tree, with each operator behind its operands.
#![tactic(auto)]

mod trees;
mod words;

use case_rows::answer_rows;
use const_fold::{cast, fold, fold2};
use j2k_base::{CExpr, Const, NoMemory, Value};
use std::alloc::Global;
use std::fmt::Write;
use std::io;
use trees::tree;
use words::{constant, kind, operator};

fn put_constant(found: Option<Const>, out: &mut String) -> Result<(), NoMemory> {
    match found {
        Some(value) => write!(out, "{value:?}")?,
        None => out.push_str("none")?,
    }
    Ok(())
}

fn put_units(units: &[u16], out: &mut String) -> Result<(), NoMemory> {
    out.push_str("text ")?;
    for unit in units {
        out.push(char::from_u32(u32::from(*unit)).unwrap_or('?'))?;
    }
    Ok(())
}

/// The value of an operator on two constants.
fn two(text: &str) -> Option<Const> {
    let mut words = text.split(' ');
    let a = constant(words.next()?)?;
    let b = constant(words.next()?)?;
    fold2(operator(words.next()?)?, a, b)
}

/// The value of a constant in another kind.
fn one(text: &str) -> Option<Const> {
    let mut words = text.split(' ');
    let a = constant(words.next()?)?;
    let to = kind(words.next()?)?;
    match a {
        Const::Bool(_) => None,
        _ => Some(cast(to, a)),
    }
}

fn put_value(alloc: Global, of: &CExpr, out: &mut String) -> Result<(), NoMemory> {
    match &fold(alloc, of)? {
        Some(Value::Number(value)) => put_constant(Some(*value), out),
        Some(Value::Text(units)) => put_units(units.as_slice(), out),
        None => put_constant(None, out),
    }
}

fn put_folded(alloc: Global, text: &str, out: &mut String) -> Result<(), NoMemory> {
    match &tree(alloc, text)? {
        Some(of) => put_value(alloc, of.get(), out),
        None => {
            out.push_str("no tree")?;
            Ok(())
        }
    }
}

fn put_answer(alloc: Global, word: &str, text: &[u8], out: &mut String) -> Result<(), NoMemory> {
    let text = str::from_utf8(text).unwrap_or("");
    match word {
        "operator" => put_constant(two(text), out),
        "cast" => put_constant(one(text), out),
        "fold" => put_folded(alloc, text, out),
        _ => {
            out.push_str("no such call")?;
            Ok(())
        }
    }
}

fn main(rt: HostRuntime) -> io::Result<()> {
    answer_rows(&rt, |alloc, word, text, out| {
        put_answer(alloc, word, text, out)
    })
}

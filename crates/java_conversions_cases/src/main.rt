//! Subtyping and conversions, and the first of some faults: a row of standard input is a word for the call and what it is asked.
//!
//! - `subtype`, `loose`, `cast`: two types with a `|` between them.
//! - `assigned`: the type of a constant, its value and the type of the place.
//! - `promoted`: two operands, and the type to which they are promoted.
//! - `first`: faults as `N1@a.java:9`, and `block` for what is judged later.
//!
//! A type is written behind its arguments: `String List/1` is `List<String>`. bench/conversions/rows.py makes the rows, with the
//! answers of javac.
#![tactic(auto)]

mod classes;
mod faults;
mod types;

use case_rows::answer_rows;
use classes::heads;
use faults::put_first;
use j2k_base::{Const, Kind, NoMemory};
use java_conversions::{is_assignable, is_castable, is_loose, is_subtype, promoted_both};
use java_type_relations::Heads;
use java_typed::{TypeView, viewed};
use std::alloc::Global;
use std::io;
use types::{USE, type_of};

/// What a row asks of two types.
#[derive(Clone, Copy)]
enum Asked {
    Subtype,
    Loose,
    Cast,
}

fn put_truth(holds: bool, out: &mut String) -> Result<(), NoMemory> {
    out.push_str(if holds { "yes" } else { "no" })?;
    Ok(())
}

fn part(text: &str, at: usize) -> &str {
    text.split(" | ").nth(at).unwrap_or("")
}

fn of_two(
    alloc: Global,
    heads: &Heads,
    asked: Asked,
    a: TypeView<'_>,
    b: TypeView<'_>,
) -> Result<bool, NoMemory> {
    match asked {
        Asked::Subtype => is_subtype(alloc, heads, a, b),
        Asked::Loose => is_loose(alloc, heads, a, b),
        Asked::Cast => is_castable(alloc, heads, a, b),
    }
}

fn put_two(alloc: Global, asked: Asked, text: &str, out: &mut String) -> Result<(), NoMemory> {
    let heads = heads(alloc)?;
    let a = type_of(alloc, USE, part(text, 0))?;
    let b = type_of(alloc, USE, part(text, 1))?;
    let holds = of_two(alloc, &heads, asked, viewed(&a), viewed(&b))?;
    put_truth(holds, out)
}

/// A constant of a type.
fn constant(kind: TypeView<'_>, value: i32) -> Option<Const> {
    match kind {
        TypeView::Number(Kind::Byte) => Some(Const::Byte(i8::try_from(value).ok()?)),
        TypeView::Number(Kind::Short) => Some(Const::Short(i16::try_from(value).ok()?)),
        TypeView::Number(Kind::Char) => Some(Const::Char(u16::try_from(value).ok()?)),
        TypeView::Number(Kind::Int) => Some(Const::Int(value)),
        TypeView::Number(Kind::Long) => Some(Const::Long(i64::from(value))),
        _ => None,
    }
}

fn put_assigned(alloc: Global, text: &str, out: &mut String) -> Result<(), NoMemory> {
    let heads = heads(alloc)?;
    let a = type_of(alloc, USE, part(text, 0))?;
    let b = type_of(alloc, USE, part(text, 2))?;
    let value = constant(viewed(&a), part(text, 1).parse::<i32>().unwrap_or(0));
    let holds = is_assignable(alloc, &heads, viewed(&a), value, viewed(&b))?;
    put_truth(holds, out)
}

fn is_kind(found: Option<Kind>, kind: TypeView<'_>) -> bool {
    match (found, kind) {
        (Some(found), TypeView::Number(kind)) => found == kind,
        _ => false,
    }
}

fn put_promoted(alloc: Global, text: &str, out: &mut String) -> Result<(), NoMemory> {
    let a = type_of(alloc, USE, part(text, 0))?;
    let b = type_of(alloc, USE, part(text, 1))?;
    let to = type_of(alloc, USE, part(text, 2))?;
    let holds = is_kind(promoted_both(viewed(&a), viewed(&b)), viewed(&to));
    put_truth(holds, out)
}

fn answer(alloc: Global, word: &str, text: &[u8], out: &mut String) -> Result<(), NoMemory> {
    let text = str::from_utf8(text).unwrap_or("");
    match word {
        "subtype" => put_two(alloc, Asked::Subtype, text, out),
        "loose" => put_two(alloc, Asked::Loose, text, out),
        "cast" => put_two(alloc, Asked::Cast, text, out),
        "assigned" => put_assigned(alloc, text, out),
        "promoted" => put_promoted(alloc, text, out),
        "first" => put_first(alloc, text, out),
        _ => {
            out.push_str("no such word")?;
            Ok(())
        }
    }
}

fn main(rt: HostRuntime) -> io::Result<()> {
    answer_rows(&rt, |alloc, word, text, out| {
        answer(alloc, word, text, out)
    })
}

// The parser of files: a row is a file, and its answer its first fault or what it holds.
#![tactic(auto)]

use case_rows::answer_rows;
use j2k_base::{Fault, NoMemory, Stop, Text};
use java_lexer::lex;
use java_parser::parse;
use java_unit_grammar::JUnit;
use std::alloc::Global;
use std::fmt::Write;
use std::io;

fn parsed(alloc: Global, text: &[u8]) -> Result<JUnit, Stop> {
    let path = Text::new(alloc);
    if text.len() < 100_000 {
        parse(alloc, lex(alloc, &path, text)?)
    } else {
        Err(Stop::Memory)
    }
}

fn put_fault(fault: &Fault, out: &mut String) -> Result<(), NoMemory> {
    let place = &fault.place;
    write!(
        out,
        "{:?}{} {}:{}",
        fault.phase, fault.number, place.line, place.column
    )?;
    Ok(())
}

fn put_unit(unit: &JUnit, has_counts: bool, out: &mut String) -> Result<(), NoMemory> {
    if has_counts {
        write!(
            out,
            "{} types, {} comments",
            unit.types.len(),
            unit.comments.len()
        )?;
    } else {
        out.push_str("none")?;
    }
    Ok(())
}

fn put_parsed(
    found: &Result<JUnit, Stop>,
    has_counts: bool,
    out: &mut String,
) -> Result<(), NoMemory> {
    match found {
        Ok(unit) => put_unit(unit, has_counts, out),
        Err(Stop::Fault(fault)) => put_fault(fault, out),
        Err(Stop::Memory) => Err(NoMemory),
    }
}

fn put_answer(alloc: Global, word: &str, text: &[u8], out: &mut String) -> Result<(), NoMemory> {
    match word {
        "file" => put_parsed(&parsed(alloc, text), false, out),
        "counts" => put_parsed(&parsed(alloc, text), true, out),
        _ => {
            out.push_str("no such call")?;
            Ok(())
        }
    }
}

fn main(rt: HostRuntime) -> io::Result<()> {
    answer_rows(&rt, |alloc, word, text, out| {
        put_answer(alloc, word, text, out)
    })
}

// The names of small projects: a row holds the files, and its answer is the first fault.
#![tactic(auto)]

use case_rows::answer_rows;
use j2k_base::{EntryNames, Fault, NoMemory, Stop, Text};
use java_lexer::lex;
use java_names::{Bound, bind, let_go};
use java_parser::parse;
use java_unit_grammar::JUnit;
use sqlite_items::Items;
use std::alloc::Global;
use std::fmt::Write;
use std::io;

fn let_go_units(units: Items<JUnit>) {
    drop(units);
}

fn text_of(alloc: Global, letters: &[u8]) -> Result<Text, NoMemory> {
    let mut text = Text::new(alloc);
    for letter in letters {
        if *letter < 128 {
            text.push(*letter as char)?;
        }
    }
    Ok(text)
}

fn parsed(alloc: Global, path: &Text, text: &[u8]) -> Result<JUnit, Stop> {
    if text.len() < 16_777_216 {
        parse(alloc, lex(alloc, path, text)?)
    } else {
        Err(Stop::Memory)
    }
}

fn push_unit(units: &mut Items<JUnit>, unit: Result<JUnit, Stop>) -> Result<(), NoMemory> {
    if let Ok(unit) = unit {
        units.push(unit)?;
    }
    Ok(())
}

/// The name of an entry stands between quotes.
fn push_entries(alloc: Global, entries: &mut EntryNames, text: &[u8]) -> Result<(), NoMemory> {
    for (number, part) in text.split(|byte| *byte == b'"').enumerate() {
        if number % 2 == 1 {
            entries.push(text_of(alloc, part)?)?;
        }
    }
    Ok(())
}

fn push_file(
    alloc: Global,
    units: &mut Items<JUnit>,
    entries: &mut EntryNames,
    letters: &[u8],
    text: &[u8],
) -> Result<(), NoMemory> {
    let path = text_of(alloc, letters)?;
    if path.as_str() == "j2k.toml" {
        return push_entries(alloc, entries, text);
    }
    push_unit(units, parsed(alloc, &path, text))
}

fn push_files(
    alloc: Global,
    units: &mut Items<JUnit>,
    entries: &mut EntryNames,
    text: &[u8],
) -> Result<(), NoMemory> {
    for part in text.split(|byte| *byte == 31) {
        if let Some(at) = part.iter().position(|byte| *byte == b'=') {
            push_file(alloc, units, entries, &part[..at], &part[at + 1..])?;
        }
    }
    Ok(())
}

fn put_fault(out: &mut String, fault: &Fault) -> Result<(), NoMemory> {
    write!(
        out,
        "N{} {} {}:{}",
        fault.number,
        fault.place.path.as_str(),
        fault.place.line,
        fault.place.column
    )?;
    Ok(())
}

fn put_answer(out: &mut String, answer: Result<Bound, Stop>) -> Result<(), NoMemory> {
    match answer {
        Ok(bound) => {
            let_go(bound);
            out.push_str("none")?;
            Ok(())
        }
        Err(Stop::Memory) => Err(NoMemory),
        Err(Stop::Fault(fault)) => put_fault(out, &fault),
    }
}

fn put(alloc: Global, text: &[u8], out: &mut String) -> Result<(), NoMemory> {
    let mut units = Items::new(alloc);
    let mut entries = EntryNames::new(alloc);
    if let Err(error) = push_files(alloc, &mut units, &mut entries, text) {
        let_go_units(units);
        return Err(error);
    }
    put_answer(out, bind(alloc, units, &entries))
}

fn main(rt: HostRuntime) -> io::Result<()> {
    answer_rows(&rt, |alloc, _word, text, out| put(alloc, text, out))
}

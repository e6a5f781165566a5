// The first of some faults.

use j2k_base::{Fault, NoMemory, Phase, Text};
use judged::{Note, add_fault, add_pending, fault_at, first_fault};
use sqlite_items::Items;
use std::alloc::Global;
use std::fmt::Write;

const PHASES: [(&str, Phase); 11] = [
    ("KL", Phase::KL),
    ("KS", Phase::KS),
    ("K", Phase::K),
    ("C", Phase::Settings),
    ("L", Phase::L),
    ("S", Phase::S),
    ("N", Phase::N),
    ("T", Phase::T),
    ("F", Phase::F),
    ("P", Phase::P),
    ("U", Phase::U),
];

/// The phase of a code, and its number.
fn code(text: &str) -> Option<(Phase, u8)> {
    for (letters, phase) in PHASES {
        if let Some(number) = text.strip_prefix(letters) {
            return Some((phase, number.parse::<u8>().ok()?));
        }
    }
    None
}

/// A fault that a word names.
#[derive(Clone, Copy)]
struct Named<'a> {
    phase: Phase,
    number: u8,
    path: &'a str,
    offset: u32,
}

fn read_fault(word: &str) -> Option<Named<'_>> {
    let (letters, place) = word.split_once('@')?;
    let (path, offset) = place.split_once(':')?;
    let (phase, number) = code(letters)?;
    Some(Named {
        phase,
        number,
        path,
        offset: offset.parse::<u32>().ok()?,
    })
}

fn put_note(alloc: Global, notes: &mut Items<Note<u8>>, word: &str) -> Result<(), NoMemory> {
    match read_fault(word) {
        Some(fault) => {
            let path = Text::from_str(alloc, fault.path)?;
            let fault = fault_at(alloc, fault.phase, fault.number, &path, fault.offset, 1, 1)?;
            add_fault(notes, fault)
        }
        None => add_pending(notes, 0),
    }
}

fn letters(phase: Phase) -> &'static str {
    for (letters, other) in PHASES {
        if other == phase {
            return letters;
        }
    }
    ""
}

fn put_fault(fault: &Fault, out: &mut String) -> Result<(), NoMemory> {
    let letters = letters(fault.phase);
    let number = fault.number;
    let path = fault.place.path.as_str();
    let offset = fault.place.offset;
    write!(out, "{letters}{number}@{path}:{offset}")?;
    Ok(())
}

/// The first of the faults of a row, or `none`.
pub fn put_first(alloc: Global, text: &str, out: &mut String) -> Result<(), NoMemory> {
    let mut notes = Items::new(alloc);
    for word in text.split(' ') {
        put_note(alloc, &mut notes, word)?;
    }
    match first_fault(notes.as_slice()) {
        Some(fault) => put_fault(fault, out),
        None => {
            out.push_str("none")?;
            Ok(())
        }
    }
}

//! Look-ups by name: a row of standard input is a word for the look-up and a name.
//!
//! - `class`, `simple`: the class of a simple or qualified name, or of a simple name alone: its number, its package, its name in
//!   Kotlin, how many type parameters it has, and the class above it.
//! - `members`: how many members the class has, and each with its form and its name in Kotlin.
//! - `word`: what a Java word is.
//! - `hard`, `reserved`: whether a name is a hard keyword of Kotlin, or one that Kotlin text uses.
#![tactic(auto)]

mod classes;
mod members;

use case_rows::answer_rows;
use classes::put_class;
use j2k_base::NoMemory;
use java_keywords::word_kind;
use java_lib::{class_row, simple_row};
use kotlin_words::{is_hard_keyword, is_reserved_name};
use members::put_members;
use std::alloc::Global;
use std::io;

fn main(rt: HostRuntime) -> io::Result<()> {
    answer_rows(&rt, answer)
}

fn answer(_alloc: Global, word: &str, name: &[u8], out: &mut String) -> Result<(), NoMemory> {
    match word {
        "class" => put_class(class_row(name), out),
        "simple" => put_class(simple_row(name), out),
        "members" => put_members(name, out),
        "word" => put_word(name, out),
        "hard" => put_truth(is_hard_keyword(name), out),
        "reserved" => put_truth(is_reserved_name(name), out),
        _ => Ok(out.push_str("no such word")?),
    }
}

fn put_truth(holds: bool, out: &mut String) -> Result<(), NoMemory> {
    Ok(out.push_str(if holds { "yes" } else { "no" })?)
}

fn put_word(name: &[u8], out: &mut String) -> Result<(), NoMemory> {
    match word_kind(name) {
        Some(kind) => Ok(write!(out, "{kind:?}")?),
        None => Ok(out.push_str("none")?),
    }
}

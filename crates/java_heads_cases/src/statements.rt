// What statements hold besides other statements, with parts no deeper than 9.

use crate::{put_head, put_none};
use j2k_base::NoMemory;
use java_body_depths as levels;
use java_statement_grammar::{JForHead, JLock, JSimple, JSwitchLabel};
use java_statement_parser::{for_head, lock, simple, switch_label};
use java_token_cursor::Pieces;
use sqlite_items::Boxed;
use std::alloc::Global;

fn simple_kind(head: &JSimple) -> &'static str {
    match head {
        JSimple::Empty => "empty",
        JSimple::Declaration(_) => "declaration",
        JSimple::Expression(_) => "expression",
        JSimple::Break(_, _) => "break",
        JSimple::Continue(_, _) => "continue",
        JSimple::Return(_, None) => "return",
        JSimple::Return(_, Some(_)) => "return of a value",
        JSimple::Throw(_, _) => "throw",
        JSimple::ThisCall(_, _, _, _, _) => "call of this",
        JSimple::SuperCall(_, _, _, _, _) => "call of super",
    }
}

pub fn put_simple<'a>(alloc: Global, pieces: Pieces<'a>, out: &mut String) -> Result<(), NoMemory> {
    let found = Boxed::new(alloc, simple(alloc, pieces, 9)?)?;
    match found.get() {
        Some(head) => put_head(
            simple_kind(head),
            levels::simple(alloc, head)?.as_slice(),
            out,
        ),
        None => put_none(out),
    }
}

fn for_kind(head: &JForHead) -> &'static str {
    match head {
        JForHead::Basic(_, _, Some(_), _, _, _) => "basic",
        JForHead::Basic(_, _, None, _, _, _) => "basic without a condition",
        JForHead::Each(_, _, _, _, _, _) => "each",
    }
}

pub fn put_for<'a>(alloc: Global, pieces: Pieces<'a>, out: &mut String) -> Result<(), NoMemory> {
    let found = Boxed::new(alloc, for_head(alloc, pieces, 9)?)?;
    match found.get() {
        Some(head) => put_head(
            for_kind(head),
            levels::for_head(alloc, head)?.as_slice(),
            out,
        ),
        None => put_none(out),
    }
}

fn lock_kind(head: &JLock) -> &'static str {
    match head {
        JLock::Expression(_) => "expression",
        JLock::Class(_, _, _) => "class",
    }
}

pub fn put_lock<'a>(alloc: Global, pieces: Pieces<'a>, out: &mut String) -> Result<(), NoMemory> {
    let found = Boxed::new(alloc, lock(alloc, pieces, 9)?)?;
    match found.get() {
        Some(head) => put_head(lock_kind(head), levels::lock(alloc, head)?.as_slice(), out),
        None => put_none(out),
    }
}

fn label_kind(head: &JSwitchLabel) -> &'static str {
    match head {
        JSwitchLabel::Case(_, _, _) => "case",
        JSwitchLabel::Default(_, _) => "default",
    }
}

pub fn put_label<'a>(alloc: Global, pieces: Pieces<'a>, out: &mut String) -> Result<(), NoMemory> {
    let found = Boxed::new(alloc, switch_label(alloc, pieces, 9)?)?;
    match found.get() {
        Some(head) => put_head(
            label_kind(head),
            levels::label(alloc, head)?.as_slice(),
            out,
        ),
        None => put_none(out),
    }
}

// Heads of types and of their members, with parts no deeper than 9 and values no deeper than 10.

use crate::{put_head, put_none};
use j2k_base::NoMemory;
use java_body_depths as levels;
use java_member_grammar::{JMemberHead, JTypeHead};
use java_member_parser::{before_block, before_semicolon, constants, type_head};
use java_token_cursor::Pieces;
use sqlite_items::Boxed;
use std::alloc::Global;

fn member_kind(head: &JMemberHead) -> &'static str {
    match head {
        JMemberHead::Empty => "empty",
        JMemberHead::Field(_, _) => "field",
        JMemberHead::Method(_, _, _, _, _, _, _) => "method",
        JMemberHead::Constructor(_, _, _, _, _) => "constructor",
        JMemberHead::Initializer(None) => "initializer",
        JMemberHead::Initializer(Some(_)) => "static initializer",
    }
}

/// A member of a body that stands in an expression.
pub fn put_member<'a>(alloc: Global, pieces: Pieces<'a>, out: &mut String) -> Result<(), NoMemory> {
    let found = Boxed::new(alloc, before_semicolon(alloc, pieces, 9, 10)?)?;
    match found.get() {
        Some(head) => put_head(
            member_kind(head),
            levels::member(alloc, head)?.as_slice(),
            out,
        ),
        None => put_none(out),
    }
}

/// A member that stands in no expression.
pub fn put_top<'a>(alloc: Global, pieces: Pieces<'a>, out: &mut String) -> Result<(), NoMemory> {
    let found = Boxed::new(alloc, before_semicolon(alloc, pieces, 9, 10)?)?;
    match found.get() {
        Some(head) => put_head(member_kind(head), levels::top(alloc, head)?.as_slice(), out),
        None => put_none(out),
    }
}

/// A member before its block.
pub fn put_before_block<'a>(
    alloc: Global,
    pieces: Pieces<'a>,
    out: &mut String,
) -> Result<(), NoMemory> {
    let found = Boxed::new(alloc, before_block(alloc, pieces, 9, 10)?)?;
    match found.get() {
        Some(head) => put_head(member_kind(head), &[], out),
        None => put_none(out),
    }
}

fn type_kind(head: &JTypeHead) -> &'static str {
    match head {
        JTypeHead::Class(_, _, _, _, None, None, None) => "class alone",
        JTypeHead::Class(_, _, _, _, _, _, _) => "class",
        JTypeHead::Interface(_, _, _, _, _, _) => "interface",
        JTypeHead::Enum(_, _, _, _, _) => "enum",
    }
}

pub fn put_type<'a>(alloc: Global, pieces: Pieces<'a>, out: &mut String) -> Result<(), NoMemory> {
    let found = Boxed::new(alloc, type_head(alloc, pieces, 9)?)?;
    match found.get() {
        Some(head) => put_head(type_kind(head), &[], out),
        None => put_none(out),
    }
}

pub fn put_constants<'a>(
    alloc: Global,
    pieces: Pieces<'a>,
    out: &mut String,
) -> Result<(), NoMemory> {
    let found = Boxed::new(alloc, constants(alloc, pieces, 9)?)?;
    match found.get() {
        Some(head) => put_head("constants", levels::constants(alloc, head)?.as_slice(), out),
        None => put_none(out),
    }
}

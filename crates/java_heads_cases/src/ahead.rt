// What is known of tokens before they are parsed: brackets, where a head or a run ends, and what goes ahead.

use crate::put_none;
use j2k_base::NoMemory;
use java_body_cuts::{
    CutFound, Stop, before_curly, cut, goes_declared, goes_type, line, semicolon_end, spans,
};
use java_brackets::{Paired, Partners, pairs};
use java_fault_finder::first_run;
use java_token_cursor::Pieces;
use java_tree::JToken;
use std::alloc::Global;
use std::fmt::Write;

fn put_numbers(partners: &Partners, out: &mut String) -> Result<(), NoMemory> {
    let mut before = "";
    for at in 0..partners.len() {
        write!(out, "{before}{}", partners.get(at))?;
        before = " ";
    }
    Ok(())
}

/// The number of each token's partner, or the first flaw.
pub fn put_partners(alloc: Global, tokens: &[JToken], out: &mut String) -> Result<(), NoMemory> {
    if tokens.len() >= 100_000 {
        return Err(NoMemory);
    }
    match &pairs(alloc, tokens)? {
        Paired::Flawed(flawed) => write!(out, "{} {:?}", flawed.number, flawed.flaw)?,
        Paired::Pairs(partners) => put_numbers(partners, out)?,
    }
    Ok(())
}

fn put_spans(spans: &[bool], out: &mut String) -> Result<(), NoMemory> {
    for is_block in spans {
        out.push_str(if *is_block { " block" } else { " class" })?;
    }
    Ok(())
}

/// How much is in a head, which bodies it has, and what follows it.
fn put_found<'a>(alloc: Global, found: &CutFound<'a>, out: &mut String) -> Result<(), NoMemory> {
    write!(
        out,
        "{} pieces, {} bodies:",
        found.text.len(),
        found.bodies.len()
    )?;
    put_spans(spans(alloc, found.text.as_slice())?.as_slice(), out)?;
    let (end, behind) = semicolon_end(found.rest);
    write!(out, ", {} + {} behind", end.len(), behind.len())?;
    Ok(())
}

/// A head that a `;` ends.
pub fn put_cut<'a>(alloc: Global, pieces: Pieces<'a>, out: &mut String) -> Result<(), NoMemory> {
    if pieces.len() >= 100_000 {
        return Err(NoMemory);
    }
    match &cut(alloc, Stop::Semicolon, pieces)? {
        Some(found) => put_found(alloc, found, out),
        None => put_none(out),
    }
}

/// What goes ahead, how many pieces stand before the first `{` and how many behind the first `;`.
pub fn put_ahead<'a>(pieces: Pieces<'a>, out: &mut String) -> Result<(), NoMemory> {
    if goes_type(pieces) {
        out.push_str("type, ")?;
    }
    if goes_declared(pieces) {
        out.push_str("declared, ")?;
    }
    let before = before_curly(pieces).0.len();
    let behind = line(pieces).1.len();
    write!(out, "{before} before, {behind} behind")?;
    Ok(())
}

/// The end of the first run, how many pieces are in it and how many behind it.
pub fn put_run<'a>(pieces: Pieces<'a>, out: &mut String) -> Result<(), NoMemory> {
    let run = first_run(pieces);
    write!(out, "{:?} {} {}", run.end, run.text.len(), run.rest.len())?;
    Ok(())
}

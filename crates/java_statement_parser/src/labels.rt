//! Locks, and labels of a switch.

ghost use Rattle.std.specs.Prelude.{◌≡◌};
ghost use Rattle.java_token_cursor.specs.Heads.{Finds};
ghost use Rattle.java_token_cursor.specs.Shown.{shown};
ghost use Rattle.java_type_parser.specs.Gives.{Gives, Always};
ghost use Rattle.java_statement_grammar.specs.Reading as h;
ghost use Rattle.java_declaration_parser.specs.Found.{found, same};
ghost use Rattle.java_statement_parser.specs.Trees.{class_word};

use crate::parts::whole;
use j2k_base::NoMemory;
use java_declaration_parser::at_end;
use java_exprs::read;
use java_statement_grammar::{JLock, JSwitchLabel};
use java_token_cursor::{Head, Pieces, colon, dot, first};
use java_tree::{JQualified, Keyword, Position};
use java_type_parser::{let_go, qualified};
use std::alloc::Global;

fn class_word<'a>(pieces: Pieces<'a>) -> Option<(Position, Pieces<'a>)>
    ensures { Finds (class_word (shown pieces.now)) result }
{
    match first(pieces) {
        Head::Word(Keyword::Class, at, rest) => Some((at, rest)),
        _ => None,
    }
}

/// The class with that name, where a dot and `class` are what is left.
#[tactic(auto, using(crate::proofs::Rules::locks))]
fn class_of<'a>(name: JQualified, pieces: Pieces<'a>) -> Option<JLock>
    ensures { result ≡ h.class_of name (shown pieces.now) }
{
    let Some((dot, rest)) = dot(pieces) else {
        let_go(name);
        return None;
    };
    let Some((at, rest)) = class_word(rest) else {
        let_go(name);
        return None;
    };
    if at_end(rest) {
        Some(JLock::Class(name, dot, at))
    } else {
        let_go(name);
        None
    }
}

fn class_lock<'a>(alloc: Global, pieces: Pieces<'a>) -> Result<Option<JLock>, NoMemory>
    ensures { Gives same Always (h.class_lock (shown pieces.now)) result }
{
    match first(pieces) {
        Head::Id(name, at, rest) => {
            let (name, rest) = qualified(alloc, name, at, rest)?;
            Ok(class_of(name, rest))
        }
        _ => Ok(None),
    }
}

/// The lock that the pieces spell.
#[tactic(auto, unfolding(java_statement_grammar::specs::Reading::lock_read))]
pub fn lock_read<'a>(
    alloc: Global,
    pieces: Pieces<'a>,
    depth: usize,
) -> Result<Option<JLock>, NoMemory>
    ensures { Gives same Always (h.lock_read depth (shown pieces.now)) result }
{
    if let Some(lock) = class_lock(alloc, pieces)? {
        return Ok(Some(lock));
    }
    let Some(found) = whole(alloc, pieces, depth)? else {
        return Ok(None);
    };
    Ok(Some(JLock::Expression(found.tree.into_inner())))
}

/// A label behind its `case`.
#[tactic(auto, unfolding(java_statement_grammar::specs::Reading::case_of))]
fn case_of<'a>(
    alloc: Global,
    at: Position,
    pieces: Pieces<'a>,
    depth: usize,
) -> Result<Option<(JSwitchLabel, Pieces<'a>)>, NoMemory>
    ensures { Gives found Always (h.case_of depth at (shown pieces.now)) result }
{
    let Some((value, rest)) = read(alloc, pieces, depth, 1)? else {
        return Ok(None);
    };
    let Some((end, rest)) = colon(rest) else {
        let_go(value);
        return Ok(None);
    };
    let value = value.tree.into_inner();
    Ok(Some((JSwitchLabel::Case(at, value, end), rest)))
}

fn switch_step<'a>(
    alloc: Global,
    pieces: Pieces<'a>,
    depth: usize,
) -> Result<Option<(JSwitchLabel, Pieces<'a>)>, NoMemory>
    ensures { Gives found Always (h.switch_step depth (shown pieces.now)) result }
{
    match first(pieces) {
        Head::Word(Keyword::Case, at, rest) => case_of(alloc, at, rest, depth),
        Head::Word(Keyword::Default, at, rest) => {
            let Some((end, rest)) = colon(rest) else {
                return Ok(None);
            };
            Ok(Some((JSwitchLabel::Default(at, end), rest)))
        }
        _ => Ok(None),
    }
}

/// The label that the pieces spell.
#[tactic(auto, using(crate::proofs::Rules::ends), unfolding(java_statement_grammar::specs::Reading::switch_read))]
pub fn switch_read<'a>(
    alloc: Global,
    pieces: Pieces<'a>,
    depth: usize,
) -> Result<Option<JSwitchLabel>, NoMemory>
    ensures { Gives same Always (h.switch_read depth (shown pieces.now)) result }
{
    if depth == 0 {
        return Ok(None);
    }
    let Some((label, rest)) = switch_step(alloc, pieces, depth - 1)? else {
        return Ok(None);
    };
    if at_end(rest) {
        Ok(Some(label))
    } else {
        let_go(label);
        Ok(None)
    }
}

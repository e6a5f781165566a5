//! What stands before the `;` of a statement that holds no other.

ghost use Rattle.std.specs.Prelude.{◌≡◌, ◌∷◌};
ghost use Rattle.java_tree.specs.Seen.{Token};
ghost use Rattle.java_tree.specs.declared.tokens.Keyword.TheVariants as w;
ghost use Rattle.java_token_cursor.specs.Shown.{shown};
ghost use Rattle.java_type_parser.specs.Gives.{Gives, Always};
ghost use Rattle.java_statement_grammar.specs.Reading as h;
ghost use Rattle.java_declaration_parser.specs.Found.{same};
ghost use Rattle.java_statement_parser.specs.Jumps.{break_read, continue_read};

use crate::begins::begins_declaration;
use crate::declarations::declaration_read;
use crate::parts::{statement_read, unboxed, value_of, whole};
use j2k_base::{Name, NoMemory};
use java_declaration_parser::{ArgsFound, args_read, at_end};
use java_statement_grammar::{JLabelName, JSimple};
use java_token_cursor::{Head, Pieces, copied, first};
use java_tree::{Keyword, Mark, Position};
use java_type_parser::let_go;
use std::alloc::Global;

#[tactic(auto, using(crate::proofs::Rules::ends), unfolding(java_statement_grammar::specs::Reading::expression))]
fn expression<'a>(
    alloc: Global,
    pieces: Pieces<'a>,
    depth: usize,
) -> Result<Option<JSimple>, NoMemory>
    ensures { Gives same Always (h.expression depth (shown pieces.now)) result }
{
    let Some((found, rest)) = statement_read(alloc, pieces, depth)? else {
        return Ok(None);
    };
    if at_end(rest) {
        Ok(Some(JSimple::Expression(found.tree.into_inner())))
    } else {
        let_go(found);
        Ok(None)
    }
}

#[tactic(auto, using(crate::proofs::Rules::ends), unfolding(java_statement_grammar::specs::Reading::declaration))]
fn declaration<'a>(
    alloc: Global,
    pieces: Pieces<'a>,
    depth: usize,
) -> Result<Option<JSimple>, NoMemory>
    ensures { Gives same Always (h.declaration depth (shown pieces.now)) result }
{
    let Some((declared, rest)) = declaration_read(alloc, pieces, depth)? else {
        return Ok(None);
    };
    if at_end(rest) {
        Ok(Some(JSimple::Declaration(declared)))
    } else {
        let_go(declared);
        Ok(None)
    }
}

fn plain<'a>(alloc: Global, pieces: Pieces<'a>, depth: usize) -> Result<Option<JSimple>, NoMemory>
    ensures { Gives same Always (h.plain depth (shown pieces.now)) result }
{
    if begins_declaration(pieces) {
        declaration(alloc, pieces, depth)
    } else {
        expression(alloc, pieces, depth)
    }
}

/// The name, where no piece is left.
#[tactic(auto, using(crate::proofs::Rules::ends))]
fn only_label<'a>(
    alloc: Global,
    name: &Name,
    at: Position,
    pieces: Pieces<'a>,
) -> Result<Option<Option<JLabelName>>, NoMemory>
    ensures { Gives same Always (h.label_of (Token.Id name.now at ∷ shown pieces.now)) result }
{
    if at_end(pieces) {
        let name = copied(alloc, name)?;
        Ok(Some(Some(JLabelName { name, at })))
    } else {
        Ok(None)
    }
}

fn label_of<'a>(alloc: Global, pieces: Pieces<'a>) -> Result<Option<Option<JLabelName>>, NoMemory>
    ensures { Gives same Always (h.label_of (shown pieces.now)) result }
{
    match first(pieces) {
        Head::End => Ok(Some(None)),
        Head::Id(name, at, rest) => only_label(alloc, name, at, rest),
        _ => Ok(None),
    }
}

fn break_to<'a>(
    alloc: Global,
    at: Position,
    pieces: Pieces<'a>,
) -> Result<Option<JSimple>, NoMemory>
    ensures { Gives same Always (break_read at (shown pieces.now)) result }
{
    let Some(label) = label_of(alloc, pieces)? else {
        return Ok(None);
    };
    Ok(Some(JSimple::Break(at, label)))
}

fn continue_to<'a>(
    alloc: Global,
    at: Position,
    pieces: Pieces<'a>,
) -> Result<Option<JSimple>, NoMemory>
    ensures { Gives same Always (continue_read at (shown pieces.now)) result }
{
    let Some(label) = label_of(alloc, pieces)? else {
        return Ok(None);
    };
    Ok(Some(JSimple::Continue(at, label)))
}

#[tactic(auto, unfolding(java_statement_grammar::specs::Reading::worded))]
fn returned<'a>(
    alloc: Global,
    at: Position,
    pieces: Pieces<'a>,
    depth: usize,
) -> Result<Option<JSimple>, NoMemory>
    ensures { Gives same Always (h.worded depth w.Return at (shown pieces.now)) result }
{
    let Some(value) = value_of(alloc, pieces, depth)? else {
        return Ok(None);
    };
    Ok(Some(JSimple::Return(at, unboxed(value))))
}

#[tactic(auto, unfolding(java_statement_grammar::specs::Reading::worded))]
fn thrown<'a>(
    alloc: Global,
    at: Position,
    pieces: Pieces<'a>,
    depth: usize,
) -> Result<Option<JSimple>, NoMemory>
    ensures { Gives same Always (h.worded depth w.Throw at (shown pieces.now)) result }
{
    let Some(found) = whole(alloc, pieces, depth)? else {
        return Ok(None);
    };
    Ok(Some(JSimple::Throw(at, found.tree.into_inner())))
}

#[tactic(auto, using(crate::proofs::Rules::ends), unfolding(java_statement_grammar::specs::Reading::this_call))]
fn this_call<'a>(
    alloc: Global,
    at: Position,
    lp: Position,
    pieces: Pieces<'a>,
    depth: usize,
) -> Result<Option<JSimple>, NoMemory>
    ensures { Gives same Always (h.this_call depth at lp (shown pieces.now)) result }
{
    let Some((args, rest)) = args_read(alloc, pieces, depth)? else {
        return Ok(None);
    };
    if !at_end(rest) {
        let_go(args);
        return Ok(None);
    }
    let ArgsFound {
        items,
        commas,
        close,
    } = args;
    Ok(Some(JSimple::ThisCall(at, lp, items, commas, close)))
}

#[tactic(auto, using(crate::proofs::Rules::ends), unfolding(java_statement_grammar::specs::Reading::super_call))]
fn super_call<'a>(
    alloc: Global,
    at: Position,
    lp: Position,
    pieces: Pieces<'a>,
    depth: usize,
) -> Result<Option<JSimple>, NoMemory>
    ensures { Gives same Always (h.super_call depth at lp (shown pieces.now)) result }
{
    let Some((args, rest)) = args_read(alloc, pieces, depth)? else {
        return Ok(None);
    };
    if !at_end(rest) {
        let_go(args);
        return Ok(None);
    }
    let ArgsFound {
        items,
        commas,
        close,
    } = args;
    Ok(Some(JSimple::SuperCall(at, lp, items, commas, close)))
}

/// Behind a `this`, with which `all` begins.
fn behind_this<'a>(
    alloc: Global,
    at: Position,
    all: Pieces<'a>,
    pieces: Pieces<'a>,
    depth: usize,
) -> Result<Option<JSimple>, NoMemory>
    requires { shown all.now ≡ Token.Word w.This at ∷ shown pieces.now }
    ensures { Gives same Always (h.behind_this depth at (shown pieces.now)) result }
{
    match first(pieces) {
        Head::Mark(Mark::OpenRound, lp, rest) => this_call(alloc, at, lp, rest, depth),
        _ => expression(alloc, all, depth),
    }
}

/// Behind a `super`, with which `all` begins.
fn behind_super<'a>(
    alloc: Global,
    at: Position,
    all: Pieces<'a>,
    pieces: Pieces<'a>,
    depth: usize,
) -> Result<Option<JSimple>, NoMemory>
    requires { shown all.now ≡ Token.Word w.Super at ∷ shown pieces.now }
    ensures { Gives same Always (h.behind_super depth at (shown pieces.now)) result }
{
    match first(pieces) {
        Head::Mark(Mark::OpenRound, lp, rest) => super_call(alloc, at, lp, rest, depth),
        _ => expression(alloc, all, depth),
    }
}

/// Behind a word, with which `all` begins.
#[tactic(auto, unfolding(java_statement_grammar::specs::Reading::worded))]
fn worded<'a>(
    alloc: Global,
    word: Keyword,
    at: Position,
    all: Pieces<'a>,
    pieces: Pieces<'a>,
    depth: usize,
) -> Result<Option<JSimple>, NoMemory>
    requires { shown all.now ≡ Token.Word word at ∷ shown pieces.now }
    ensures { Gives same Always (h.worded depth word at (shown pieces.now)) result }
{
    match word {
        Keyword::Break => break_to(alloc, at, pieces),
        Keyword::Continue => continue_to(alloc, at, pieces),
        Keyword::Return => returned(alloc, at, pieces, depth),
        Keyword::Throw => thrown(alloc, at, pieces, depth),
        Keyword::This => behind_this(alloc, at, all, pieces, depth),
        Keyword::Super => behind_super(alloc, at, all, pieces, depth),
        _ => plain(alloc, all, depth),
    }
}

/// The simple statement that the pieces spell.
#[tactic(auto, unfolding(java_statement_grammar::specs::Reading::simple_read))]
pub fn simple_read<'a>(
    alloc: Global,
    pieces: Pieces<'a>,
    depth: usize,
) -> Result<Option<JSimple>, NoMemory>
    ensures { Gives same Always (h.simple_read depth (shown pieces.now)) result }
{
    match first(pieces) {
        Head::End => Ok(Some(JSimple::Empty)),
        Head::Word(word, at, rest) => worded(alloc, word, at, pieces, rest, depth),
        _ => plain(alloc, pieces, depth),
    }
}

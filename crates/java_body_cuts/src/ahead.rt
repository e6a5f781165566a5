//! What comes first, and what stands further on.

ghost use Rattle.std.specs.Prelude.{◌≡◌, ◌≤◌, ◌++◌, length, IfOk};
ghost use Rattle.java_token_cursor.specs.Shown.{shown, piece_shown};
ghost use Rattle.java_token_cursor.specs.Heads.{Finds};
ghost use Rattle.java_statement_grammar.specs.Reading as h;
ghost use Rattle.java_unit_grammar.specs.Reading as u;
ghost use Rattle.java_unit_grammar.specs.Standing.{spans};
ghost use Rattle.java_body_cuts.specs.Looks.{Counts, HasRest, Tells, after_name, curly_count, line_count, semicolon_count, span_of};

use crate::parting::{parted, split};
use j2k_base::NoMemory;
use java_token_cursor::{Head, Piece, Pieces, first};
use java_tree::{Keyword, Mark, Position};
use java_type_parser::onward;
use std::alloc::Global;

pub fn close_curly<'a>(pieces: Pieces<'a>) -> Option<(Position, Pieces<'a>)>
    ensures { Finds (u.close_curly (shown pieces.now)) result }
{
    match first(pieces) {
        Head::Mark(Mark::CloseCurly, at, rest) => Some((at, rest)),
        _ => None,
    }
}

pub fn semicolon<'a>(pieces: Pieces<'a>) -> Option<(Position, Pieces<'a>)>
    ensures { Finds (h.semicolon (shown pieces.now)) result }
{
    match first(pieces) {
        Head::Mark(Mark::Semicolon, at, rest) => Some((at, rest)),
        _ => None,
    }
}

pub fn while_word<'a>(pieces: Pieces<'a>) -> Option<(Position, Pieces<'a>)>
    ensures { Finds (u.while_word (shown pieces.now)) result }
{
    match first(pieces) {
        Head::Word(Keyword::While, at, rest) => Some((at, rest)),
        _ => None,
    }
}

pub fn catch_word<'a>(pieces: Pieces<'a>) -> Option<(Position, Pieces<'a>)>
    ensures { Finds (u.catch_word (shown pieces.now)) result }
{
    match first(pieces) {
        Head::Word(Keyword::Catch, at, rest) => Some((at, rest)),
        _ => None,
    }
}

/// Whether there are none.
pub fn is_end<'a>(pieces: Pieces<'a>) -> bool
    ensures { result ≡ u.is_end (shown pieces.now) }
{
    match first(pieces) {
        Head::End => true,
        _ => false,
    }
}

/// Whether a `}` comes first.
pub fn begins_close<'a>(pieces: Pieces<'a>) -> bool
    ensures { result ≡ u.begins_close (shown pieces.now) }
{
    match first(pieces) {
        Head::Mark(Mark::CloseCurly, _, _) => true,
        _ => false,
    }
}

/// Whether a label of a switch comes first (JLS 14.11).
pub fn begins_case<'a>(pieces: Pieces<'a>) -> bool
    ensures { result ≡ u.begins_case (shown pieces.now) }
{
    match first(pieces) {
        Head::Word(Keyword::Case | Keyword::Default, _, _) => true,
        _ => false,
    }
}

/// Whether `catch` comes first.
pub fn begins_catch<'a>(pieces: Pieces<'a>) -> bool
    ensures { result ≡ u.begins_catch (shown pieces.now) }
{
    match first(pieces) {
        Head::Word(Keyword::Catch, _, _) => true,
        _ => false,
    }
}

/// Whether what ends the statements behind labels of a switch comes first: a label or a `}`.
pub fn ends_group<'a>(pieces: Pieces<'a>) -> bool
    ensures { result ≡ u.ends_group (shown pieces.now) }
{
    match first(pieces) {
        Head::Word(Keyword::Case | Keyword::Default, _, _) => true,
        Head::Mark(Mark::CloseCurly, _, _) => true,
        _ => false,
    }
}

/// Whether `package` comes first.
pub fn begins_package<'a>(pieces: Pieces<'a>) -> bool
    ensures { result ≡ u.begins_package (shown pieces.now) }
{
    match first(pieces) {
        Head::Word(Keyword::Package, _, _) => true,
        _ => false,
    }
}

/// Whether `import` comes first.
pub fn begins_import<'a>(pieces: Pieces<'a>) -> bool
    ensures { result ≡ u.begins_import (shown pieces.now) }
{
    match first(pieces) {
        Head::Word(Keyword::Import, _, _) => true,
        _ => false,
    }
}

#[tactic(auto, using(crate::proofs::Tokens::words))]
fn put_span<'a>(found: &mut Vec<bool>, piece: Piece<'a>) -> Result<(), NoMemory>
    ensures { IfOk result (λ u. found.new.items ≡ found.old.items ++ span_of (piece_shown piece.entry)) }
{
    match piece {
        Piece::Token(_) => {}
        Piece::Block(_, _) => found.push(true)?,
        Piece::Body(_, _) => found.push(false)?,
    }
    Ok(())
}

/// Of each body that counts with a piece, whether it is a block.
#[tactic(auto, using(crate::proofs::Tokens::spanned))]
pub fn spans<'a>(alloc: Global, pieces: Pieces<'a>) -> Result<Vec<bool>, NoMemory>
    ensures { IfOk result (λ v. v.items ≡ spans (shown pieces.now)) }
{
    let mut found = Vec::new(alloc);
    let mut rest = pieces;
    while let Some((piece, behind)) = parted(rest) {
        put_span(&mut found, piece)?;
        rest = onward(behind);
    }
    Ok(found)
}

/// A turn of a look ahead.
#[derive(Clone, Copy)]
enum Ahead<'a> {
    Says(bool),
    Go(Pieces<'a>),
}

fn declared_turn<'a>(pieces: Pieces<'a>) -> Ahead<'a>
    ensures { Tells u.goes_declared pieces.now result }
{
    match first(pieces) {
        Head::End | Head::Mark(Mark::OpenCurly, _, _) => Ahead::Says(false),
        Head::Mark(Mark::Semicolon | Mark::Assign, _, _) => Ahead::Says(true),
        Head::Mark(_, _, rest) => Ahead::Go(rest),
        Head::Id(_, _, rest) => Ahead::Go(rest),
        Head::Word(_, _, rest) => Ahead::Go(rest),
        Head::Literal(_, _, rest) => Ahead::Go(rest),
        Head::Block(_, _, rest) => Ahead::Go(rest),
        Head::Body(_, _, rest) => Ahead::Go(rest),
    }
}

/// Whether a `;` or a `=` comes before the first `{`.
pub fn goes_declared<'a>(mut pieces: Pieces<'a>) -> bool
    ensures { result ≡ u.goes_declared (shown pieces.entry.now) }
{
    'ahead: loop {
        match declared_turn(pieces) {
            Ahead::Says(found) => return found,
            Ahead::Go(rest) => pieces = onward(rest),
        }
    }
}

fn after_name<'a>(pieces: Pieces<'a>) -> Option<Pieces<'a>>
    ensures { HasRest (after_name (shown pieces.now)) pieces.now result }
{
    match first(pieces) {
        Head::Id(_, _, rest) => Some(rest),
        _ => None,
    }
}

#[tactic(auto, using(crate::proofs::Tokens::types))]
fn type_turn<'a>(pieces: Pieces<'a>) -> Ahead<'a>
    ensures { Tells u.goes_type pieces.now result }
{
    match first(pieces) {
        Head::Mark(Mark::At, _, rest) => match after_name(rest) {
            Some(rest) => Ahead::Go(rest),
            None => Ahead::Says(false),
        },
        Head::Word(Keyword::Class | Keyword::Interface | Keyword::Enum, _, _) => Ahead::Says(true),
        Head::Word(_, _, rest) => Ahead::Go(rest),
        _ => Ahead::Says(false),
    }
}

/// Whether `class`, `interface` or `enum` comes behind modifiers (JLS 8.1, 8.9, 9.1).
pub fn goes_type<'a>(mut pieces: Pieces<'a>) -> bool
    ensures { result ≡ u.goes_type (shown pieces.entry.now) }
{
    'ahead: loop {
        match type_turn(pieces) {
            Ahead::Says(found) => return found,
            Ahead::Go(rest) => pieces = onward(rest),
        }
    }
}

/// A turn of a count.
#[derive(Clone, Copy)]
enum Count<'a> {
    /// How many more count.
    Ends(usize),
    /// One more, and the pieces behind it.
    Go(Pieces<'a>),
}

#[tactic(auto, unfolding(crate::specs::Looks::curly_count))]
fn curly_turn<'a>(pieces: Pieces<'a>) -> Count<'a>
    ensures { Counts curly_count pieces.now result }
{
    match first(pieces) {
        Head::End | Head::Mark(Mark::OpenCurly, _, _) => Count::Ends(0),
        Head::Mark(_, _, rest) => Count::Go(rest),
        Head::Id(_, _, rest) => Count::Go(rest),
        Head::Word(_, _, rest) => Count::Go(rest),
        Head::Literal(_, _, rest) => Count::Go(rest),
        Head::Block(_, _, rest) => Count::Go(rest),
        Head::Body(_, _, rest) => Count::Go(rest),
    }
}

/// How many pieces stand before the first `{`.
#[tactic(auto, using(crate::proofs::Tokens::counts))]
fn curly_count<'a>(pieces: Pieces<'a>) -> usize
    ensures value { result ≡ curly_count (shown pieces.now) }
    ensures within { result ≤ length pieces.now }
{
    let mut count = 0;
    let mut rest = pieces;
    'ahead: loop {
        match curly_turn(rest) {
            Count::Ends(more) => return count + more,
            Count::Go(behind) => {
                count += 1;
                rest = onward(behind);
            }
        }
    }
}

#[tactic(auto, unfolding(crate::specs::Looks::line_count))]
fn line_turn<'a>(pieces: Pieces<'a>) -> Count<'a>
    ensures { Counts line_count pieces.now result }
{
    match first(pieces) {
        Head::End => Count::Ends(0),
        Head::Mark(Mark::Semicolon, _, _) => Count::Ends(1),
        Head::Mark(_, _, rest) => Count::Go(rest),
        Head::Id(_, _, rest) => Count::Go(rest),
        Head::Word(_, _, rest) => Count::Go(rest),
        Head::Literal(_, _, rest) => Count::Go(rest),
        Head::Block(_, _, rest) => Count::Go(rest),
        Head::Body(_, _, rest) => Count::Go(rest),
    }
}

/// How many pieces there are as far as the first `;`.
#[tactic(auto, using(crate::proofs::Tokens::counts))]
fn line_count<'a>(pieces: Pieces<'a>) -> usize
    ensures value { result ≡ line_count (shown pieces.now) }
    ensures within { result ≤ length pieces.now }
{
    let mut count = 0;
    let mut rest = pieces;
    'ahead: loop {
        match line_turn(rest) {
            Count::Ends(more) => return count + more,
            Count::Go(behind) => {
                count += 1;
                rest = onward(behind);
            }
        }
    }
}

/// What stands before the first `{`, and what begins with it.
#[tactic(auto, using(crate::proofs::Tokens::before_is))]
pub fn before_curly<'a>(pieces: Pieces<'a>) -> (Pieces<'a>, Pieces<'a>)
    ensures { (shown result.0.now, shown result.1.now) ≡ u.before_curly (shown pieces.now) }
{
    split(pieces, curly_count(pieces))
}

/// The pieces as far as the first `;`, and those behind it.
#[tactic(auto, using(crate::proofs::Tokens::line_is))]
pub fn line<'a>(pieces: Pieces<'a>) -> (Pieces<'a>, Pieces<'a>)
    ensures { (shown result.0.now, shown result.1.now) ≡ u.line (shown pieces.now) }
{
    split(pieces, line_count(pieces))
}

fn semicolon_count<'a>(pieces: Pieces<'a>) -> usize
    ensures value { result ≡ semicolon_count (shown pieces.now) }
    ensures within { result ≤ length pieces.now }
{
    match first(pieces) {
        Head::Mark(Mark::Semicolon, _, _) => 1,
        _ => 0,
    }
}

/// The `;` that comes first, or nothing, and what follows.
#[tactic(auto, using(crate::proofs::Tokens::end_is))]
pub fn semicolon_end<'a>(pieces: Pieces<'a>) -> (Pieces<'a>, Pieces<'a>)
    ensures { (shown result.0.now, shown result.1.now) ≡ u.constants_end (shown pieces.now) }
{
    split(pieces, semicolon_count(pieces))
}

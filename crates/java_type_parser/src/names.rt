//! Names with dots, and brackets.

ghost use Rattle.std.specs.Prelude.{◌≡◌, IfOk};
ghost use Rattle.java_token_cursor.specs.Shown.{shown};
ghost use Rattle.java_token_cursor.specs.Heads.{Finds};
ghost use Rattle.java_expr_grammar.specs.Reading as r;
ghost use Rattle.java_type_parser.specs.Gives.{closed_pair, pair_at, named, dotted_at, HasDot, inferred_end, Gives, Always, param_found, created_found};

use crate::exits::let_go;
use crate::types::closes;
use j2k_base::{Name, NoMemory};
use java_token_cursor::{Head, Pieces, close_square, copied, dot, first};
use java_tree::{JBrackets, JCreated, JDotted, JParam, JQualified, Mark, Position};
use sqlite_items::Items;
use std::alloc::Global;

/// A dot, the name behind it, and what follows.
#[derive(Clone, Copy)]
pub struct DotName<'a> {
    pub dot: Position,
    pub name: &'a Name,
    pub at: Position,
    pub rest: Pieces<'a>,
}

/// The pieces themselves. A loop that goes on behind what it found takes the rest through this
/// call, since the borrow checker joins no other way.
pub fn onward<'a>(pieces: Pieces<'a>) -> Pieces<'a>
    ensures { result.now ≡ pieces.now }
{
    pieces
}

/// A name that comes first.
pub fn ident<'a>(
    alloc: Global,
    pieces: Pieces<'a>,
) -> Result<Option<(JParam, Pieces<'a>)>, NoMemory>
    ensures { Gives param_found Always (r.ident (shown pieces.now)) result }
{
    match first(pieces) {
        Head::Id(name, at, rest) => {
            let name = copied(alloc, name)?;
            Ok(Some((JParam { name, at }, rest)))
        }
        _ => Ok(None),
    }
}

fn open_square<'a>(pieces: Pieces<'a>) -> Option<(Position, Pieces<'a>)>
    ensures { Finds (r.open_square (shown pieces.now)) result }
{
    match first(pieces) {
        Head::Mark(Mark::OpenSquare, at, rest) => Some((at, rest)),
        _ => None,
    }
}

fn closed_pair<'a>(opens: Position, pieces: Pieces<'a>) -> Option<(JBrackets, Pieces<'a>)>
    ensures { Finds (closed_pair opens (shown pieces.now)) result }
{
    let (closes, rest) = close_square(pieces)?;
    Some((JBrackets { opens, closes }, rest))
}

/// `[` and `]` that come first.
fn pair<'a>(pieces: Pieces<'a>) -> Option<(JBrackets, Pieces<'a>)>
    ensures { Finds (pair_at (shown pieces.now)) result }
{
    let (opens, rest) = open_square(pieces)?;
    closed_pair(opens, rest)
}

/// The pairs of brackets that come first.
#[tactic(auto, using(crate::proofs::Rules::names))]
pub fn brackets<'a>(
    alloc: Global,
    mut pieces: Pieces<'a>,
) -> Result<(Items<JBrackets>, Pieces<'a>), NoMemory>
    ensures { IfOk result (λ x. (x.0, shown x.1.now) ≡ r.brackets (shown pieces.entry.now)) }
{
    let mut pairs = Items::new(alloc);
    while let Some((next, rest)) = pair(pieces) {
        let Ok(()) = pairs.push(next) else {
            let_go(pairs);
            return Err(NoMemory);
        };
        pieces = onward(rest);
    }
    Ok((pairs, pieces))
}

fn named<'a>(dot: Position, pieces: Pieces<'a>) -> Option<DotName<'a>>
    ensures { HasDot (named dot (shown pieces.now)) result }
{
    match first(pieces) {
        Head::Id(name, at, rest) => Some(DotName {
            dot,
            name,
            at,
            rest,
        }),
        _ => None,
    }
}

/// A dot and a name that come first.
fn dot_name<'a>(pieces: Pieces<'a>) -> Option<DotName<'a>>
    ensures { HasDot (dotted_at (shown pieces.now)) result }
{
    let (at, rest) = dot(pieces)?;
    named(at, rest)
}

/// The dots and names that come first.
#[tactic(auto, using(crate::proofs::Rules::names))]
pub fn dotted<'a>(
    alloc: Global,
    mut pieces: Pieces<'a>,
) -> Result<(Items<JDotted>, Pieces<'a>), NoMemory>
    ensures { IfOk result (λ x. (x.0, shown x.1.now) ≡ r.dotted (shown pieces.entry.now)) }
{
    let mut names = Items::new(alloc);
    while let Some(next) = dot_name(pieces) {
        let Ok(name) = copied(alloc, next.name) else {
            let_go(names);
            return Err(NoMemory);
        };
        let name = JDotted {
            dot: next.dot,
            name,
            at: next.at,
        };
        let Ok(()) = names.push(name) else {
            let_go(names);
            return Err(NoMemory);
        };
        pieces = onward(next.rest);
    }
    Ok((names, pieces))
}

/// What follows the dots and names that come first.
#[tactic(auto, using(crate::proofs::Rules::names))]
pub fn after_dotted<'a>(mut pieces: Pieces<'a>) -> Pieces<'a>
    ensures { shown result.now ≡ (r.dotted (shown pieces.entry.now)).1 }
{
    while let Some(next) = dot_name(pieces) {
        pieces = onward(next.rest);
    }
    pieces
}

/// The name, and those that stand behind it with dots.
pub fn qualified<'a>(
    alloc: Global,
    name: &Name,
    at: Position,
    pieces: Pieces<'a>,
) -> Result<(JQualified, Pieces<'a>), NoMemory>
    ensures { IfOk result (λ x. (x.0, shown x.1.now) ≡ r.qualified name.now at (shown pieces.now)) }
{
    let name = copied(alloc, name)?;
    let Ok((rest, pieces)) = dotted(alloc, pieces) else {
        let_go(name);
        return Err(NoMemory);
    };
    Ok((JQualified { name, at, rest }, pieces))
}

fn inferred_end<'a>(
    name: JQualified,
    lp: Position,
    pieces: Pieces<'a>,
) -> Option<(JCreated, Pieces<'a>)>
    ensures { Finds (inferred_end name lp (shown pieces.now)) result }
{
    let Some(((is_joined, close), rest)) = closes(pieces) else {
        let_go(name);
        return None;
    };
    Some((JCreated::Inferred(name, lp, is_joined, close), rest))
}

fn inferred_by<'a>(name: JQualified, pieces: Pieces<'a>) -> Option<(JCreated, Pieces<'a>)>
    ensures { Finds (r.inferred_by name (shown pieces.now)) result }
{
    match first(pieces) {
        Head::Mark(Mark::Less, lp, rest) => inferred_end(name, lp, rest),
        _ => {
            let_go(name);
            None
        }
    }
}

/// A name with `<` and `>` behind it.
pub fn inferred<'a>(
    alloc: Global,
    pieces: Pieces<'a>,
) -> Result<Option<(JCreated, Pieces<'a>)>, NoMemory>
    ensures { Gives created_found Always (r.inferred (shown pieces.now)) result }
{
    match first(pieces) {
        Head::Id(name, at, rest) => {
            let (name, rest) = qualified(alloc, name, at, rest)?;
            Ok(inferred_by(name, rest))
        }
        _ => Ok(None),
    }
}

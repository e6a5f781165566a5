//! Declarations of variables behind their types.

ghost use Rattle.std.specs.Prelude.{◌≡◌, ◌<◌, ◌+◌, length};
ghost use Rattle.java_token_cursor.specs.Shown.{shown};
ghost use Rattle.java_type_parser.specs.Gives.{Gives, Always};
ghost use Rattle.java_expr_grammar.specs.Reading as r;
ghost use Rattle.java_statement_grammar.specs.Reading as h;
ghost use Rattle.java_declaration_parser.specs.Found.{found, listed_found, value_at};

use crate::found::ListFound;
use j2k_base::NoMemory;
use java_exprs::read;
use java_statement_grammar::{JDeclaration, JDeclarator, JValue};
use java_token_cursor::{Head, Pieces, comma, first};
use java_tree::{JParam, JType, Mark, Position};
use java_type_parser::{found_or_let_go, ident, onward};
use std::alloc::Global;

/// The value behind a `=`.
fn value_at<'a>(
    alloc: Global,
    at: Position,
    pieces: Pieces<'a>,
    depth: usize,
) -> Result<Option<(Option<JValue>, Pieces<'a>)>, NoMemory>
    ensures { Gives found Always (value_at depth at (shown pieces.now)) result }
{
    let Some((found, rest)) = read(alloc, pieces, depth, 0)? else {
        return Ok(None);
    };
    let tree = found.tree.into_inner();
    Ok(Some((Some(JValue { at, tree }), rest)))
}

/// A `=` and a value, where a `=` comes first.
fn value_by<'a>(
    alloc: Global,
    pieces: Pieces<'a>,
    depth: usize,
) -> Result<Option<(Option<JValue>, Pieces<'a>)>, NoMemory>
    ensures { Gives found Always (h.value_by depth (shown pieces.now)) result }
{
    match first(pieces) {
        Head::Mark(Mark::Assign, at, rest) => value_at(alloc, at, rest, depth),
        _ => Ok(Some((None, pieces))),
    }
}

/// A declared name with a depth of at most `depth`.
#[tactic(auto, unfolding(java_statement_grammar::specs::Reading::declarator_read))]
fn declarator<'a>(
    alloc: Global,
    pieces: Pieces<'a>,
    depth: usize,
) -> Result<Option<(JDeclarator, Pieces<'a>)>, NoMemory>
    ensures { Gives found Always (h.declarator_read depth (shown pieces.now)) result }
{
    if depth == 0 {
        return Ok(None);
    }
    let Some((name, rest)) = ident(alloc, pieces)? else {
        return Ok(None);
    };
    let (value, rest) = found_or_let_go!(value_by(alloc, rest, depth - 1), name);
    let JParam { name, at } = name;
    Ok(Some((JDeclarator { name, at, value }, rest)))
}

/// One or more declared names.
#[tactic(auto, using(crate::proofs::Rules::lists), unfolding(java_expr_grammar::specs::Reading::some_by))]
fn declarators<'a>(
    alloc: Global,
    pieces: Pieces<'a>,
    depth: usize,
) -> Result<Option<(ListFound<JDeclarator>, Pieces<'a>)>, NoMemory>
    ensures { Gives listed_found Always (r.some_by r.comma (h.declarator_read depth) (shown pieces.now)) result }
{
    let Some((name, rest)) = declarator(alloc, pieces, depth)? else {
        return Ok(None);
    };
    let found = ListFound::one(alloc, name)?;
    more_declarators(alloc, found, rest, depth)
}

#[tactic(auto, using(crate::proofs::Rules::lists), unfolding(java_expr_grammar::specs::Reading::more_by))]
fn more_declarators<'a>(
    alloc: Global,
    mut found: ListFound<JDeclarator>,
    mut pieces: Pieces<'a>,
    depth: usize,
) -> Result<Option<(ListFound<JDeclarator>, Pieces<'a>)>, NoMemory>
    ensures { Gives listed_found Always (r.more_by r.comma (h.declarator_read depth) (length pieces.entry.now) found.items found.commas (shown pieces.entry.now)) result }
{
    for _turn in 0..pieces.len() {
        let Some((at, rest)) = comma(pieces) else {
            return Ok(Some((found, pieces)));
        };
        let (next, rest) = found_or_let_go!(declarator(alloc, rest, depth), found);
        found = found.with(at, next)?;
        pieces = onward(rest);
    }
    Ok(Some((found, pieces)))
}

/// A declaration behind its type, with names no deeper than `depth`, and the pieces after it.
#[tactic(auto, unfolding(java_statement_grammar::specs::Reading::declaration_of))]
pub fn declaration_of<'a>(
    alloc: Global,
    depth: usize,
    is_final: Option<Position>,
    kind: JType,
    pieces: Pieces<'a>,
) -> Result<Option<(JDeclaration, Pieces<'a>)>, NoMemory>
    ensures { Gives found Always (h.declaration_of depth is_final kind (shown pieces.now)) result }
{
    let (names, rest) = found_or_let_go!(declarators(alloc, pieces, depth), kind);
    let ListFound {
        items: names,
        commas,
    } = names;
    let declared = JDeclaration {
        is_final,
        kind,
        names,
        commas,
    };
    Ok(Some((declared, rest)))
}

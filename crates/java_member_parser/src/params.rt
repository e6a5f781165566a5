//! Type parameters.

ghost use Rattle.std.specs.Prelude.{◌≡◌, ◌<◌, ◌+◌, length};
ghost use Rattle.java_token_cursor.specs.Shown.{shown};
ghost use Rattle.java_type_parser.specs.Gives.{Gives, Always};
ghost use Rattle.java_expr_grammar.specs.Reading as r;
ghost use Rattle.java_member_grammar.specs.Reading as m;
ghost use Rattle.java_declaration_parser.specs.Found.{found, listed_found};

use crate::begins::closes;
use j2k_base::NoMemory;
use java_declaration_parser::ListFound;
use java_member_grammar::{JBound, JTypeParam, JTypeParams};
use java_token_cursor::{Head, Pieces, comma, first};
use java_tree::{JParam, Keyword, Mark, Position};
use java_type_parser::{found_or_let_go, ident, let_go, onward, read_type};
use std::alloc::Global;

/// `extends` and a type, where they come first.
pub fn bound<'a>(
    alloc: Global,
    pieces: Pieces<'a>,
    depth: usize,
) -> Result<Option<(Option<JBound>, Pieces<'a>)>, NoMemory>
    ensures { Gives found Always (m.bound depth (shown pieces.now)) result }
{
    match first(pieces) {
        Head::Word(Keyword::Extends, at, rest) => {
            let Some((kind, rest)) = read_type(alloc, rest, depth)? else {
                return Ok(None);
            };
            let kind = kind.tree;
            Ok(Some((Some(JBound { at, kind }), rest)))
        }
        _ => Ok(Some((None, pieces))),
    }
}

/// A type parameter with a depth of at most `depth`.
#[tactic(auto, unfolding(java_member_grammar::specs::Reading::type_param))]
fn type_param<'a>(
    alloc: Global,
    pieces: Pieces<'a>,
    depth: usize,
) -> Result<Option<(JTypeParam, Pieces<'a>)>, NoMemory>
    ensures { Gives found Always (m.type_param depth (shown pieces.now)) result }
{
    if depth == 0 {
        return Ok(None);
    }
    let Some((name, rest)) = ident(alloc, pieces)? else {
        return Ok(None);
    };
    let (bound, rest) = found_or_let_go!(bound(alloc, rest, depth - 1), name);
    let JParam { name, at } = name;
    Ok(Some((JTypeParam { name, at, bound }, rest)))
}

/// One or more type parameters.
#[tactic(auto, using(java_declaration_parser::proofs::LawsToCite::lists), unfolding(java_expr_grammar::specs::Reading::some_by))]
fn some_type_params<'a>(
    alloc: Global,
    pieces: Pieces<'a>,
    depth: usize,
) -> Result<Option<(ListFound<JTypeParam>, Pieces<'a>)>, NoMemory>
    ensures { Gives listed_found Always (r.some_by r.comma (m.type_param depth) (shown pieces.now)) result }
{
    let Some((param, rest)) = type_param(alloc, pieces, depth)? else {
        return Ok(None);
    };
    let found = ListFound::one(alloc, param)?;
    more_type_params(alloc, found, rest, depth)
}

#[tactic(auto, using(java_declaration_parser::proofs::LawsToCite::lists), unfolding(java_expr_grammar::specs::Reading::more_by))]
fn more_type_params<'a>(
    alloc: Global,
    mut found: ListFound<JTypeParam>,
    mut pieces: Pieces<'a>,
    depth: usize,
) -> Result<Option<(ListFound<JTypeParam>, Pieces<'a>)>, NoMemory>
    ensures { Gives listed_found Always (r.more_by r.comma (m.type_param depth) (length pieces.entry.now) found.items found.commas (shown pieces.entry.now)) result }
{
    for _turn in 0..pieces.len() {
        let Some((at, rest)) = comma(pieces) else {
            return Ok(Some((found, pieces)));
        };
        let (next, rest) = found_or_let_go!(type_param(alloc, rest, depth), found);
        found = found.with(at, next)?;
        pieces = onward(rest);
    }
    Ok(Some((found, pieces)))
}

/// Type parameters behind their `<`.
#[tactic(auto, unfolding(java_member_grammar::specs::Reading::type_params_of))]
fn type_params_of<'a>(
    alloc: Global,
    opens: Position,
    pieces: Pieces<'a>,
    depth: usize,
) -> Result<Option<(JTypeParams, Pieces<'a>)>, NoMemory>
    ensures { Gives found Always (m.type_params_of depth opens (shown pieces.now)) result }
{
    let Some((params, rest)) = some_type_params(alloc, pieces, depth)? else {
        return Ok(None);
    };
    let Some(((is_joined, close), rest)) = closes(rest) else {
        let_go(params);
        return Ok(None);
    };
    let ListFound { items, commas } = params;
    let params = JTypeParams {
        opens,
        items,
        commas,
        is_joined,
        closes: close,
    };
    Ok(Some((params, rest)))
}

/// Type parameters, where they come first.
pub fn type_params<'a>(
    alloc: Global,
    pieces: Pieces<'a>,
    depth: usize,
) -> Result<Option<(Option<JTypeParams>, Pieces<'a>)>, NoMemory>
    ensures { Gives found Always (m.type_params depth (shown pieces.now)) result }
{
    match first(pieces) {
        Head::Mark(Mark::Less, opens, rest) => {
            let Some((params, rest)) = type_params_of(alloc, opens, rest, depth)? else {
                return Ok(None);
            };
            Ok(Some((Some(params), rest)))
        }
        _ => Ok(Some((None, pieces))),
    }
}

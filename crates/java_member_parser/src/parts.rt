//! Formal parameters, and types behind a word.

ghost use Rattle.std.specs.Prelude.{◌≡◌, length};
ghost use Rattle.java_token_cursor.specs.Shown.{shown};
ghost use Rattle.java_type_parser.specs.Gives.{Gives, Always};
ghost use Rattle.java_expr_grammar.specs.Reading as r;
ghost use Rattle.java_member_grammar.specs.Reading as m;
ghost use Rattle.java_declaration_parser.specs.Found.{found, listed_found};
ghost use Rattle.java_member_parser.specs.Found.{list_found};

use j2k_base::NoMemory;
use java_declaration_parser::ListFound;
use java_member_grammar::{JFormals, JTypeList};
use java_token_cursor::{Head, Pieces, close, comma, first, open_round};
use java_tree::{JType, Keyword, Position};
use java_type_parser::{TypedsFound, found_or_let_go, let_go, onward, read_type, typed_from};
use std::alloc::Global;

/// Formal parameters.
#[tactic(auto, unfolding(java_member_grammar::specs::Reading::formals, java_expr_grammar::specs::Reading::typed_from))]
pub fn formals<'a>(
    alloc: Global,
    pieces: Pieces<'a>,
    depth: usize,
) -> Result<Option<(JFormals, Pieces<'a>)>, NoMemory>
    ensures { Gives found Always (m.formals depth (shown pieces.now)) result }
{
    let Some((opens, rest)) = open_round(pieces) else {
        return Ok(None);
    };
    let Some((params, rest)) = typed_from(alloc, rest, depth)? else {
        return Ok(None);
    };
    let Some((closes, rest)) = close(rest) else {
        let_go(params);
        return Ok(None);
    };
    let TypedsFound {
        items,
        commas,
        deepest: _,
    } = params;
    let formals = JFormals {
        opens,
        items,
        commas,
        closes,
    };
    Ok(Some((formals, rest)))
}

/// One or more types.
#[tactic(auto, using(java_declaration_parser::proofs::LawsToCite::lists), unfolding(java_expr_grammar::specs::Reading::some_by))]
fn some_types<'a>(
    alloc: Global,
    pieces: Pieces<'a>,
    depth: usize,
) -> Result<Option<(ListFound<JType>, Pieces<'a>)>, NoMemory>
    ensures { Gives listed_found Always (r.some_by r.comma (r.type_read depth) (shown pieces.now)) result }
{
    let Some((kind, rest)) = read_type(alloc, pieces, depth)? else {
        return Ok(None);
    };
    let found = ListFound::one(alloc, kind.tree)?;
    more_types(alloc, found, rest, depth)
}

#[tactic(auto, using(java_declaration_parser::proofs::LawsToCite::lists), unfolding(java_expr_grammar::specs::Reading::more_by))]
fn more_types<'a>(
    alloc: Global,
    mut found: ListFound<JType>,
    mut pieces: Pieces<'a>,
    depth: usize,
) -> Result<Option<(ListFound<JType>, Pieces<'a>)>, NoMemory>
    ensures { Gives listed_found Always (r.more_by r.comma (r.type_read depth) (length pieces.entry.now) found.items found.commas (shown pieces.entry.now)) result }
{
    for _turn in 0..pieces.len() {
        let Some((at, rest)) = comma(pieces) else {
            return Ok(Some((found, pieces)));
        };
        let (next, rest) = found_or_let_go!(read_type(alloc, rest, depth), found);
        found = found.with(at, next.tree)?;
        pieces = onward(rest);
    }
    Ok(Some((found, pieces)))
}

/// The types behind the word at the position.
#[tactic(auto, unfolding(java_member_grammar::specs::Reading::types_behind))]
fn types_behind<'a>(
    alloc: Global,
    at: Position,
    pieces: Pieces<'a>,
    depth: usize,
) -> Result<Option<(Option<JTypeList>, Pieces<'a>)>, NoMemory>
    ensures { Gives found Always (list_found (m.types_behind depth at (shown pieces.now))) result }
{
    let Some((types, rest)) = some_types(alloc, pieces, depth)? else {
        return Ok(None);
    };
    let ListFound { items, commas } = types;
    Ok(Some((Some(JTypeList { at, items, commas }), rest)))
}

/// `throws` and types, where they come first.
pub fn throws<'a>(
    alloc: Global,
    pieces: Pieces<'a>,
    depth: usize,
) -> Result<Option<(Option<JTypeList>, Pieces<'a>)>, NoMemory>
    ensures { Gives found Always (m.throws depth (shown pieces.now)) result }
{
    match first(pieces) {
        Head::Word(Keyword::Throws, at, rest) => types_behind(alloc, at, rest, depth),
        _ => Ok(Some((None, pieces))),
    }
}

/// `implements` and types, where they come first.
pub fn implements<'a>(
    alloc: Global,
    pieces: Pieces<'a>,
    depth: usize,
) -> Result<Option<(Option<JTypeList>, Pieces<'a>)>, NoMemory>
    ensures { Gives found Always (m.implements depth (shown pieces.now)) result }
{
    match first(pieces) {
        Head::Word(Keyword::Implements, at, rest) => types_behind(alloc, at, rest, depth),
        _ => Ok(Some((None, pieces))),
    }
}

/// `extends` and types, where they come first.
pub fn extends_list<'a>(
    alloc: Global,
    pieces: Pieces<'a>,
    depth: usize,
) -> Result<Option<(Option<JTypeList>, Pieces<'a>)>, NoMemory>
    ensures { Gives found Always (m.extends_list depth (shown pieces.now)) result }
{
    match first(pieces) {
        Head::Word(Keyword::Extends, at, rest) => types_behind(alloc, at, rest, depth),
        _ => Ok(Some((None, pieces))),
    }
}

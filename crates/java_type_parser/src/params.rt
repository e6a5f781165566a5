//! Parameters of lambdas.

ghost use Rattle.std.specs.Prelude.{◌≡◌, ◌≤◌, ◌<◌, ◌+◌, length};
ghost use Rattle.java_token_cursor.specs.Shown.{shown};
ghost use Rattle.java_expr_grammar.specs.Reading as r;
ghost use Rattle.java_type_parser.specs.Gives.{Gives, Always, params_found, typed_found, typeds_found, TypedFits, TypedsFit, typed_list};

use crate::exits::let_go;
use crate::found_or_let_go;
use crate::names::{ident, onward};
use crate::types::{TypeFound, larger, read_type};
use j2k_base::NoMemory;
use java_token_cursor::{Head, Pieces, close, comma, first};
use java_tree::{JParam, JTypedParam, Keyword, Position};
use sqlite_items::Items;
use std::alloc::Global;

/// Names, and the commas between them.
#[derive(Drop)]
pub struct ParamsFound {
    pub items: Items<JParam>,
    pub commas: Items<Position>,
}

/// A parameter with its type, and its depth.
#[derive(Drop)]
pub struct TypedFound {
    pub tree: JTypedParam,
    pub depth: usize,
}

/// Parameters with their types, the commas between them, and the depth of the deepest.
#[derive(Drop)]
pub struct TypedsFound {
    pub items: Items<JTypedParam>,
    pub commas: Items<Position>,
    pub deepest: usize,
}

/// One or more names.
#[tactic(auto, using(crate::proofs::Rules::rules), unfolding(java_expr_grammar::specs::Reading::some_by))]
pub fn some_params<'a>(
    alloc: Global,
    pieces: Pieces<'a>,
) -> Result<Option<(ParamsFound, Pieces<'a>)>, NoMemory>
    ensures { Gives params_found Always (r.some_by r.comma r.ident (shown pieces.now)) result }
{
    let Some((found, rest)) = ident(alloc, pieces)? else {
        return Ok(None);
    };
    let mut items = Items::new(alloc);
    let Ok(()) = items.push(found) else {
        let_go(items);
        return Err(NoMemory);
    };
    let commas = Items::new(alloc);
    more_params(alloc, ParamsFound { items, commas }, rest)
}

#[tactic(auto, using(crate::proofs::Rules::rules), unfolding(java_expr_grammar::specs::Reading::more_by))]
fn more_params<'a>(
    alloc: Global,
    mut found: ParamsFound,
    mut pieces: Pieces<'a>,
) -> Result<Option<(ParamsFound, Pieces<'a>)>, NoMemory>
    ensures { Gives params_found Always (r.more_by r.comma r.ident (length pieces.entry.now) found.items found.commas (shown pieces.entry.now)) result }
{
    for _turn in 0..pieces.len() {
        let Some((at, rest)) = comma(pieces) else {
            return Ok(Some((found, pieces)));
        };
        let (next, rest) = found_or_let_go!(ident(alloc, rest), found);
        let Ok(()) = found.items.push(next) else {
            let_go(found);
            return Err(NoMemory);
        };
        let Ok(()) = found.commas.push(at) else {
            let_go(found);
            return Err(NoMemory);
        };
        pieces = onward(rest);
    }
    Ok(Some((found, pieces)))
}

#[tactic(auto, unfolding(java_expr_grammar::specs::Reading::typed_by))]
fn typed_by<'a>(
    alloc: Global,
    is_final: Option<Position>,
    pieces: Pieces<'a>,
    depth: usize,
) -> Result<Option<(TypedFound, Pieces<'a>)>, NoMemory>
    requires { depth < usize.MAX }
    ensures { Gives typed_found (TypedFits (depth + 1)) (r.typed_by (r.type_read depth) is_final (shown pieces.now)) result }
{
    let Some((found, rest)) = read_type(alloc, pieces, depth)? else {
        return Ok(None);
    };
    let (name, rest) = found_or_let_go!(ident(alloc, rest), found);
    let JParam { name, at } = name;
    let TypeFound { tree: kind, depth } = found;
    let tree = JTypedParam {
        is_final,
        kind,
        name,
        at,
    };
    Ok(Some((
        TypedFound {
            tree,
            depth: depth + 1,
        },
        rest,
    )))
}

fn typed_step<'a>(
    alloc: Global,
    pieces: Pieces<'a>,
    depth: usize,
) -> Result<Option<(TypedFound, Pieces<'a>)>, NoMemory>
    requires { depth < usize.MAX }
    ensures { Gives typed_found (TypedFits (depth + 1)) (r.typed_step (r.type_read depth) (shown pieces.now)) result }
{
    match first(pieces) {
        Head::Word(Keyword::Final, at, rest) => typed_by(alloc, Some(at), rest, depth),
        _ => typed_by(alloc, None, pieces, depth),
    }
}

/// A parameter with its type, no deeper than `depth`.
#[tactic(auto, unfolding(java_expr_grammar::specs::Reading::typed_read))]
fn read_typed<'a>(
    alloc: Global,
    pieces: Pieces<'a>,
    depth: usize,
) -> Result<Option<(TypedFound, Pieces<'a>)>, NoMemory>
    ensures { Gives typed_found (TypedFits depth) (r.typed_read depth (shown pieces.now)) result }
{
    if depth == 0 {
        return Ok(None);
    }
    typed_step(alloc, pieces, depth - 1)
}

/// One or more parameters with their types.
#[tactic(auto, using(crate::proofs::Rules::rules), unfolding(java_expr_grammar::specs::Reading::some_by))]
fn some_typed<'a>(
    alloc: Global,
    pieces: Pieces<'a>,
    depth: usize,
) -> Result<Option<(TypedsFound, Pieces<'a>)>, NoMemory>
    ensures { Gives typeds_found (TypedsFit depth) (r.some_by r.comma (r.typed_read depth) (shown pieces.now)) result }
{
    let Some((found, rest)) = read_typed(alloc, pieces, depth)? else {
        return Ok(None);
    };
    let mut items = Items::new(alloc);
    let Ok(()) = items.push(found.tree) else {
        let_go(items);
        return Err(NoMemory);
    };
    more_typed(
        alloc,
        TypedsFound {
            items,
            commas: Items::new(alloc),
            deepest: found.depth,
        },
        rest,
        depth,
    )
}

#[tactic(auto, using(crate::proofs::Rules::rules), unfolding(java_expr_grammar::specs::Reading::more_by))]
fn more_typed<'a>(
    alloc: Global,
    mut found: TypedsFound,
    mut pieces: Pieces<'a>,
    depth: usize,
) -> Result<Option<(TypedsFound, Pieces<'a>)>, NoMemory>
    requires { TypedsFit depth (found, pieces) }
    ensures { Gives typeds_found (TypedsFit depth) (r.more_by r.comma (r.typed_read depth) (length pieces.entry.now) found.items found.commas (shown pieces.entry.now)) result }
{
    for _turn in 0..pieces.len() {
        let Some((at, rest)) = comma(pieces) else {
            return Ok(Some((found, pieces)));
        };
        let (next, rest) = found_or_let_go!(read_typed(alloc, rest, depth), found);
        let Ok(()) = found.items.push(next.tree) else {
            let_go(found);
            return Err(NoMemory);
        };
        let Ok(()) = found.commas.push(at) else {
            let_go(found);
            return Err(NoMemory);
        };
        found.deepest = larger(found.deepest, next.depth);
        pieces = onward(rest);
    }
    Ok(Some((found, pieces)))
}

/// None, or as many as there are, up to the `)`.
pub fn typed_from<'a>(
    alloc: Global,
    pieces: Pieces<'a>,
    depth: usize,
) -> Result<Option<(TypedsFound, Pieces<'a>)>, NoMemory>
    ensures { Gives typeds_found (TypedsFit depth) (typed_list depth (shown pieces.now)) result }
{
    if close(pieces).is_some() {
        let none = TypedsFound {
            items: Items::new(alloc),
            commas: Items::new(alloc),
            deepest: 0,
        };
        return Ok(Some((none, pieces)));
    }
    some_typed(alloc, pieces, depth)
}

//! The constants of an enum.

ghost use Rattle.std.specs.Prelude.{◌≡◌, length};
ghost use Rattle.java_token_cursor.specs.Shown.{shown};
ghost use Rattle.java_type_parser.specs.Gives.{Gives, Always};
ghost use Rattle.java_expr_grammar.specs.Reading as r;
ghost use Rattle.java_member_grammar.specs.Reading as m;
ghost use Rattle.java_declaration_parser.specs.Found.{found, listed_found, same};
ghost use Rattle.java_member_parser.specs.Steps.{end_of};

use crate::begins::{begins_id, comma_name};
use j2k_base::NoMemory;
use java_declaration_parser::{ArgsFound, ListFound, args_read, at_end};
use java_member_grammar::{JArguments, JConstant, JConstants};
use java_token_cursor::{Head, Pieces, comma, first};
use java_tree::{JParam, Mark, Position};
use java_type_parser::{found_or_let_go, ident, let_go, onward};
use std::alloc::Global;

/// Arguments behind their `(`.
#[tactic(auto, using(crate::proofs::Rules::groups))]
fn arguments_of<'a>(
    alloc: Global,
    opens: Position,
    pieces: Pieces<'a>,
    depth: usize,
) -> Result<Option<(JArguments, Pieces<'a>)>, NoMemory>
    ensures { Gives found Always (m.arguments_of depth opens (shown pieces.now)) result }
{
    let Some((args, rest)) = args_read(alloc, pieces, depth)? else {
        return Ok(None);
    };
    let ArgsFound {
        items,
        commas,
        close: closes,
    } = args;
    let args = JArguments {
        opens,
        items,
        commas,
        closes,
    };
    Ok(Some((args, rest)))
}

/// Arguments, where they come first.
fn arguments<'a>(
    alloc: Global,
    pieces: Pieces<'a>,
    depth: usize,
) -> Result<Option<(Option<JArguments>, Pieces<'a>)>, NoMemory>
    ensures { Gives found Always (m.arguments depth (shown pieces.now)) result }
{
    match first(pieces) {
        Head::Mark(Mark::OpenRound, opens, rest) => {
            let Some((args, rest)) = arguments_of(alloc, opens, rest, depth)? else {
                return Ok(None);
            };
            Ok(Some((Some(args), rest)))
        }
        _ => Ok(Some((None, pieces))),
    }
}

/// A constant that comes first.
#[tactic(auto, unfolding(java_member_grammar::specs::Reading::constant))]
fn constant<'a>(
    alloc: Global,
    pieces: Pieces<'a>,
    depth: usize,
) -> Result<Option<(JConstant, Pieces<'a>)>, NoMemory>
    ensures { Gives found Always (m.constant depth (shown pieces.now)) result }
{
    let Some((name, rest)) = ident(alloc, pieces)? else {
        return Ok(None);
    };
    let (arguments, rest) = found_or_let_go!(arguments(alloc, rest, depth), name);
    let JParam { name, at } = name;
    let constant = JConstant {
        name,
        at,
        arguments,
    };
    Ok(Some((constant, rest)))
}

/// One or more constants.
#[tactic(auto, using(java_declaration_parser::proofs::LawsToCite::lists), unfolding(java_expr_grammar::specs::Reading::some_by))]
fn some_constants<'a>(
    alloc: Global,
    pieces: Pieces<'a>,
    depth: usize,
) -> Result<Option<(ListFound<JConstant>, Pieces<'a>)>, NoMemory>
    ensures { Gives listed_found Always (r.some_by m.comma_name (m.constant depth) (shown pieces.now)) result }
{
    let Some((constant, rest)) = constant(alloc, pieces, depth)? else {
        return Ok(None);
    };
    let found = ListFound::one(alloc, constant)?;
    more_constants(alloc, found, rest, depth)
}

#[tactic(auto, using(java_declaration_parser::proofs::LawsToCite::lists), unfolding(java_expr_grammar::specs::Reading::more_by))]
fn more_constants<'a>(
    alloc: Global,
    mut found: ListFound<JConstant>,
    mut pieces: Pieces<'a>,
    depth: usize,
) -> Result<Option<(ListFound<JConstant>, Pieces<'a>)>, NoMemory>
    ensures { Gives listed_found Always (r.more_by m.comma_name (m.constant depth) (length pieces.entry.now) found.items found.commas (shown pieces.entry.now)) result }
{
    for _turn in 0..pieces.len() {
        let Some((at, rest)) = comma_name(pieces) else {
            return Ok(Some((found, pieces)));
        };
        let (next, rest) = found_or_let_go!(constant(alloc, rest, depth), found);
        found = found.with(at, next)?;
        pieces = onward(rest);
    }
    Ok(Some((found, pieces)))
}

/// As many constants as there are.
#[tactic(auto, unfolding(java_member_grammar::specs::Reading::constant_list))]
fn constant_list<'a>(
    alloc: Global,
    pieces: Pieces<'a>,
    depth: usize,
) -> Result<Option<(ListFound<JConstant>, Pieces<'a>)>, NoMemory>
    ensures { Gives listed_found Always (m.constant_list depth (shown pieces.now)) result }
{
    if begins_id(pieces) {
        return some_constants(alloc, pieces, depth);
    }
    Ok(Some((ListFound::none(alloc), pieces)))
}

/// Behind the last comma: a `;` or nothing.
#[tactic(auto, using(crate::proofs::Rules::ends))]
fn end_of<'a>(
    more: Option<Position>,
    pieces: Pieces<'a>,
) -> Option<(Option<Position>, Option<Position>)>
    ensures { result ≡ end_of more (shown pieces.now) }
{
    match first(pieces) {
        Head::End => Some((more, None)),
        Head::Mark(Mark::Semicolon, end, rest) => {
            if at_end(rest) {
                Some((more, Some(end)))
            } else {
                None
            }
        }
        _ => None,
    }
}

/// Behind the constants: one more comma and a `;`, each of which may stand.
#[tactic(auto, using(crate::proofs::Rules::looks))]
fn constants_end<'a>(pieces: Pieces<'a>) -> Option<(Option<Position>, Option<Position>)>
    ensures { result ≡ m.constants_end (shown pieces.now) }
{
    match comma(pieces) {
        Some((at, rest)) => end_of(Some(at), rest),
        None => end_of(None, pieces),
    }
}

/// The constants that the pieces are.
#[tactic(auto, unfolding(java_member_grammar::specs::Reading::constants))]
pub fn constants_read<'a>(
    alloc: Global,
    pieces: Pieces<'a>,
    depth: usize,
) -> Result<Option<JConstants>, NoMemory>
    ensures { Gives same Always (m.constants depth (shown pieces.now)) result }
{
    let Some((list, rest)) = constant_list(alloc, pieces, depth)? else {
        return Ok(None);
    };
    let Some((more, end)) = constants_end(rest) else {
        let_go(list);
        return Ok(None);
    };
    let ListFound { items, commas } = list;
    Ok(Some(JConstants {
        items,
        commas,
        more,
        end,
    }))
}

//! Expressions in the heads of statements.

ghost use Rattle.std.specs.Prelude.{◌≡◌, length};
ghost use Rattle.java_tree.specs.Trees as s;
ghost use Rattle.java_token_cursor.specs.Shown.{shown};
ghost use Rattle.java_type_parser.specs.Gives.{Gives, Always};
ghost use Rattle.java_expr_grammar.specs.Reading as r;
ghost use Rattle.java_exprs.specs.Exprs.{expr_found};
ghost use Rattle.java_statement_grammar.specs.Heads as d;
ghost use Rattle.java_statement_grammar.specs.Reading as h;
ghost use Rattle.java_declaration_parser.specs.Found.{same, listed_found};
ghost use Rattle.java_statement_parser.specs.Trees.{tree_found};

use crate::begins::ends_expressions;
use j2k_base::NoMemory;
use java_declaration_parser::{ListFound, at_end};
use java_exprs::{ExprFound, read};
use java_token_cursor::{Pieces, comma};
use java_tree::{JExpr, PrefixOp};
use java_type_parser::{found_or_let_go, let_go, onward};
use sqlite_items::Boxed;
use std::alloc::Global;

/// The tree, where there is one.
pub fn unboxed(tree: Option<Boxed<JExpr>>) -> Option<JExpr>
    ensures { result ≡ tree }
{
    match tree {
        Some(tree) => Some(tree.into_inner()),
        None => None,
    }
}

/// The expression that the pieces are.
#[tactic(auto, using(crate::proofs::Rules::ends))]
pub fn whole<'a>(
    alloc: Global,
    pieces: Pieces<'a>,
    depth: usize,
) -> Result<Option<ExprFound>, NoMemory>
    ensures { Gives tree_found Always (r.whole (r.read depth s.any_level (shown pieces.now))) result }
{
    let Some((found, rest)) = read(alloc, pieces, depth, 1)? else {
        return Ok(None);
    };
    if at_end(rest) {
        Ok(Some(found))
    } else {
        let_go(found);
        Ok(None)
    }
}

/// The expression that the pieces are, or nothing where there are none.
#[tactic(auto, using(crate::proofs::Rules::ends))]
pub fn value_of<'a>(
    alloc: Global,
    pieces: Pieces<'a>,
    depth: usize,
) -> Result<Option<Option<Boxed<JExpr>>>, NoMemory>
    ensures { Gives same Always (h.value_of depth (shown pieces.now)) result }
{
    if at_end(pieces) {
        return Ok(Some(None));
    }
    let Some(found) = whole(alloc, pieces, depth)? else {
        return Ok(None);
    };
    Ok(Some(Some(found.tree)))
}

fn steps(op: PrefixOp) -> bool
    ensures { result ≡ d.steps op }
{
    match op {
        PrefixOp::Increment | PrefixOp::Decrement => true,
        _ => false,
    }
}

/// Whether it may be a statement (JLS 14.8).
#[tactic(auto, unfolding(java_statement_grammar::specs::Heads::is_statement))]
fn is_statement(e: &JExpr) -> bool
    ensures { result ≡ d.is_statement e.now }
{
    match e {
        JExpr::Prefix(op, _, _) => steps(*op),
        JExpr::Assign(_, _, _, _)
        | JExpr::Postfix(_, _, _)
        | JExpr::Call(_, _, _, _, _, _)
        | JExpr::SuperCall(_, _, _, _, _, _, _, _)
        | JExpr::Method(_, _, _, _, _, _, _, _)
        | JExpr::New(_, _, _, _, _, _, _) => true,
        _ => false,
    }
}

/// An expression that may be a statement.
#[tactic(auto, unfolding(java_statement_grammar::specs::Reading::statement_read))]
pub fn statement_read<'a>(
    alloc: Global,
    pieces: Pieces<'a>,
    depth: usize,
) -> Result<Option<(ExprFound, Pieces<'a>)>, NoMemory>
    ensures { Gives expr_found Always (h.statement_read depth (shown pieces.now)) result }
{
    let Some((found, rest)) = read(alloc, pieces, depth, 1)? else {
        return Ok(None);
    };
    if is_statement(found.tree.get()) {
        Ok(Some((found, rest)))
    } else {
        let_go(found);
        Ok(None)
    }
}

/// One or more of them, with commas between them.
#[tactic(auto, using(java_declaration_parser::proofs::LawsToCite::lists), unfolding(java_expr_grammar::specs::Reading::some_by))]
fn some_steps<'a>(
    alloc: Global,
    pieces: Pieces<'a>,
    depth: usize,
) -> Result<Option<(ListFound<JExpr>, Pieces<'a>)>, NoMemory>
    ensures { Gives listed_found Always (r.some_by r.comma (h.statement_read depth) (shown pieces.now)) result }
{
    let Some((step, rest)) = statement_read(alloc, pieces, depth)? else {
        return Ok(None);
    };
    let found = ListFound::one(alloc, step.tree.into_inner())?;
    more_steps(alloc, found, rest, depth)
}

#[tactic(auto, using(java_declaration_parser::proofs::LawsToCite::lists), unfolding(java_expr_grammar::specs::Reading::more_by))]
fn more_steps<'a>(
    alloc: Global,
    mut found: ListFound<JExpr>,
    mut pieces: Pieces<'a>,
    depth: usize,
) -> Result<Option<(ListFound<JExpr>, Pieces<'a>)>, NoMemory>
    ensures { Gives listed_found Always (r.more_by r.comma (h.statement_read depth) (length pieces.entry.now) found.items found.commas (shown pieces.entry.now)) result }
{
    for _turn in 0..pieces.len() {
        let Some((at, rest)) = comma(pieces) else {
            return Ok(Some((found, pieces)));
        };
        let (next, rest) = found_or_let_go!(statement_read(alloc, rest, depth), found);
        found = found.with(at, next.tree.into_inner())?;
        pieces = onward(rest);
    }
    Ok(Some((found, pieces)))
}

/// As many of them as there are, up to a `;` or the end.
#[tactic(auto, unfolding(java_statement_grammar::specs::Reading::expressions))]
pub fn expressions<'a>(
    alloc: Global,
    pieces: Pieces<'a>,
    depth: usize,
) -> Result<Option<(ListFound<JExpr>, Pieces<'a>)>, NoMemory>
    ensures { Gives listed_found Always (h.expressions depth (shown pieces.now)) result }
{
    if ends_expressions(pieces) {
        return Ok(Some((ListFound::none(alloc), pieces)));
    }
    some_steps(alloc, pieces, depth)
}

//! What stands in the parentheses of a `for`.

ghost use Rattle.std.specs.Prelude.{◌≡◌};
ghost use Rattle.java_statement_grammar.specs.declared.statements.JForHead.TheVariants as v;
ghost use Rattle.java_token_cursor.specs.Shown.{shown};
ghost use Rattle.java_type_parser.specs.Gives.{Gives, Always};
ghost use Rattle.java_statement_grammar.specs.Reading as h;
ghost use Rattle.java_declaration_parser.specs.Found.{found, same};
ghost use Rattle.java_statement_parser.specs.Basic.{for_first, tests_found, tests_read, updates_read};

use crate::begins::{begins_declaration, final_first, walks};
use crate::found::TestsFound;
use crate::parts::{expressions, unboxed};
use j2k_base::NoMemory;
use java_declaration_parser::{ListFound, at_end, declaration_of, semicolon};
use java_exprs::read;
use java_statement_grammar::{JForHead, JForStart};
use java_token_cursor::{Pieces, colon};
use java_tree::{JExpr, JParam, JType, Position};
use java_type_parser::{found_or_let_go, ident, let_go, read_type};
use sqlite_items::Boxed;
use std::alloc::Global;

/// The condition, or nothing where a `;` comes first.
fn condition<'a>(
    alloc: Global,
    pieces: Pieces<'a>,
    depth: usize,
) -> Result<Option<(Option<Boxed<JExpr>>, Pieces<'a>)>, NoMemory>
    ensures { Gives found Always (h.condition depth (shown pieces.now)) result }
{
    if semicolon(pieces).is_some() {
        return Ok(Some((None, pieces)));
    }
    let Some((found, rest)) = read(alloc, pieces, depth, 1)? else {
        return Ok(None);
    };
    Ok(Some((Some(found.tree), rest)))
}

/// The condition, and the `;` before and behind it.
fn tests<'a>(
    alloc: Global,
    pieces: Pieces<'a>,
    depth: usize,
) -> Result<Option<(TestsFound, Pieces<'a>)>, NoMemory>
    ensures { Gives tests_found Always (tests_read depth (shown pieces.now)) result }
{
    let Some((first, rest)) = semicolon(pieces) else {
        return Ok(None);
    };
    let Some((test, rest)) = condition(alloc, rest, depth)? else {
        return Ok(None);
    };
    let Some((second, rest)) = semicolon(rest) else {
        let_go(test);
        return Ok(None);
    };
    let found = TestsFound {
        first,
        test,
        second,
    };
    Ok(Some((found, rest)))
}

fn basic_head(start: JForStart, tests: TestsFound, updates: ListFound<JExpr>) -> JForHead
    ensures { result ≡ v.Basic start tests.first tests.test tests.second updates.items updates.commas }
{
    let TestsFound {
        first,
        test,
        second,
    } = tests;
    let ListFound { items, commas } = updates;
    JForHead::Basic(start, first, unboxed(test), second, items, commas)
}

/// A basic `for` behind its second `;`.
fn updates<'a>(
    alloc: Global,
    start: JForStart,
    tests: TestsFound,
    pieces: Pieces<'a>,
    depth: usize,
) -> Result<Option<(JForHead, Pieces<'a>)>, NoMemory>
    ensures { Gives found Always (updates_read depth start ((tests.first, tests.test), tests.second) (shown pieces.now)) result }
{
    let (updates, rest) = found_or_let_go!(expressions(alloc, pieces, depth), start, tests);
    let head = basic_head(start, tests, updates);
    Ok(Some((head, rest)))
}

/// A basic `for` behind its beginning.
#[tactic(auto, using(crate::proofs::Basic::basics))]
fn basic<'a>(
    alloc: Global,
    start: JForStart,
    pieces: Pieces<'a>,
    depth: usize,
) -> Result<Option<(JForHead, Pieces<'a>)>, NoMemory>
    ensures { Gives found Always (h.basic depth start (shown pieces.now)) result }
{
    let (found, rest) = found_or_let_go!(tests(alloc, pieces, depth), start);
    updates(alloc, start, found, rest, depth)
}

/// The name, the `:` and what is walked through.
#[tactic(auto, unfolding(java_statement_grammar::specs::Reading::each))]
fn each<'a>(
    alloc: Global,
    is_final: Option<Position>,
    kind: JType,
    pieces: Pieces<'a>,
    depth: usize,
) -> Result<Option<(JForHead, Pieces<'a>)>, NoMemory>
    ensures { Gives found Always (h.each depth is_final kind (shown pieces.now)) result }
{
    let (name, rest) = found_or_let_go!(ident(alloc, pieces), kind);
    let Some((between, rest)) = colon(rest) else {
        let_go(kind);
        let_go(name);
        return Ok(None);
    };
    let (walked, rest) = found_or_let_go!(read(alloc, rest, depth, 1), kind, name);
    let JParam { name, at } = name;
    let walked = walked.tree.into_inner();
    Ok(Some((
        JForHead::Each(is_final, kind, name, at, between, walked),
        rest,
    )))
}

#[tactic(auto, unfolding(java_statement_grammar::specs::Reading::declared))]
fn declared<'a>(
    alloc: Global,
    is_final: Option<Position>,
    kind: JType,
    pieces: Pieces<'a>,
    depth: usize,
) -> Result<Option<(JForHead, Pieces<'a>)>, NoMemory>
    ensures { Gives found Always (h.declared depth is_final kind (shown pieces.now)) result }
{
    let Some((names, rest)) = declaration_of(alloc, depth, is_final, kind, pieces)? else {
        return Ok(None);
    };
    basic(alloc, JForStart::Declaration(names), rest, depth)
}

#[tactic(auto, unfolding(java_statement_grammar::specs::Reading::for_declared))]
fn for_declared<'a>(
    alloc: Global,
    pieces: Pieces<'a>,
    depth: usize,
) -> Result<Option<(JForHead, Pieces<'a>)>, NoMemory>
    ensures { Gives found Always (h.for_declared depth (shown pieces.now)) result }
{
    let (is_final, rest) = final_first(pieces);
    let Some((kind, rest)) = read_type(alloc, rest, depth)? else {
        return Ok(None);
    };
    if walks(rest) {
        each(alloc, is_final, kind.tree, rest, depth)
    } else {
        declared(alloc, is_final, kind.tree, rest, depth)
    }
}

#[tactic(auto, unfolding(java_statement_grammar::specs::Reading::for_plain))]
fn for_plain<'a>(
    alloc: Global,
    pieces: Pieces<'a>,
    depth: usize,
) -> Result<Option<(JForHead, Pieces<'a>)>, NoMemory>
    ensures { Gives found Always (h.for_plain depth (shown pieces.now)) result }
{
    let Some((steps, rest)) = expressions(alloc, pieces, depth)? else {
        return Ok(None);
    };
    let ListFound { items, commas } = steps;
    basic(alloc, JForStart::Expressions(items, commas), rest, depth)
}

#[tactic(auto, unfolding(crate::specs::Basic::for_first))]
fn for_first<'a>(
    alloc: Global,
    pieces: Pieces<'a>,
    depth: usize,
) -> Result<Option<(JForHead, Pieces<'a>)>, NoMemory>
    ensures { Gives found Always (for_first depth (shown pieces.now)) result }
{
    if begins_declaration(pieces) {
        for_declared(alloc, pieces, depth)
    } else {
        for_plain(alloc, pieces, depth)
    }
}

/// The head that the pieces spell.
#[tactic(auto, using(crate::proofs::Basic::fors))]
pub fn for_read<'a>(
    alloc: Global,
    pieces: Pieces<'a>,
    depth: usize,
) -> Result<Option<JForHead>, NoMemory>
    ensures { Gives same Always (h.for_read depth (shown pieces.now)) result }
{
    let Some((head, rest)) = for_first(alloc, pieces, depth)? else {
        return Ok(None);
    };
    if at_end(rest) {
        Ok(Some(head))
    } else {
        let_go(head);
        Ok(None)
    }
}

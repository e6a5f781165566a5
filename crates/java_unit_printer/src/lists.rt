//! The first part of a list, and the rest of the list, put on the stack.

ghost use Rattle.std.specs.Prelude.{◌≡◌, ◌<◌, ◌≤◌, ◌+◌, ◌++◌, [], ◌∷◌, IfOk, drop, map};
ghost use Rattle.java_tree.specs.Seen.{Token};
ghost use Rattle.java_tree.specs.declared.tokens.Mark.TheVariants as m;
ghost use Rattle.java_expr_printer.specs.Shown.{written_shown};
ghost use Rattle.java_unit_grammar.specs.Tokens.{body_tokens, filled, joined, statement_tokens, whole_member_tokens};
ghost use Rattle.java_unit_printer.specs.Weights.{body_weight, case_weight, catch_weight, group_weight, member_weight, statement_weight, text_weight, total};
ghost use Rattle.java_unit_printer.specs.Work.{case_tokens, catch_tokens, group_tokens, laid, todo, weight};

use crate::{
    Work, let_go, open_member, open_statement, push, push_block, push_keyword, push_mark, push_plain,
    push_text, switch_text, typed_text,
};
use j2k_base::NoMemory;
use java_expr_printer::Written;
use java_tree::{Keyword, Mark, Position, Span};
use java_unit_grammar::{JBody, JCase, JCaseGroup, JCatch, JMember, JStatement};
use sqlite_items::Items;
use std::alloc::Global;

/// Statements from the one of the number on.
#[tactic(auto, using(crate::proofs::Stack::places))]
pub fn open_statements<'a>(
    alloc: Global,
    stack: &mut Vec<Work<'a>>,
    xs: &'a Items<JStatement>,
    from: usize,
) -> Result<(), NoMemory>
    ensures text { IfOk result (λ u. todo stack.new.items ≡ joined (map statement_tokens (drop from xs.now)) ++ todo stack.old.items) }
    ensures weight { IfOk result (λ u. weight stack.new.items < total (map statement_weight (drop from xs.now)) + weight stack.old.items) }
{
    let items = xs.as_slice();
    if from >= items.len() {
        return Ok(());
    }
    push(stack, Work::Statements(xs, from + 1))?;
    open_statement(alloc, stack, &items[from])
}

/// Members.
#[tactic(auto, using(crate::proofs::Stack::opened))]
pub fn open_members<'a>(
    alloc: Global,
    stack: &mut Vec<Work<'a>>,
    xs: &'a [JMember],
) -> Result<(), NoMemory>
    ensures text { IfOk result (λ u. todo stack.new.items ≡ joined (map whole_member_tokens xs.now) ++ todo stack.old.items) }
    ensures weight { IfOk result (λ u. weight stack.new.items < total (map member_weight xs.now) + weight stack.old.items) }
{
    let [first, more @ ..] = xs else {
        return Ok(());
    };
    push(stack, Work::Members(more))?;
    open_member(alloc, stack, first)
}

/// Labels that stand together, and the statements behind them (JLS 14.11).
#[tactic(auto, using(crate::proofs::Stack::records))]
fn open_group<'a>(stack: &mut Vec<Work<'a>>, x: &'a JCaseGroup) -> Result<(), NoMemory>
    ensures text { IfOk result (λ u. todo stack.new.items ≡ group_tokens x.now ++ todo stack.old.items) }
    ensures weight { IfOk result (λ u. weight stack.new.items ≤ group_weight x.now + weight stack.old.items) }
{
    push(stack, Work::Statements(&x.statements, 0))?;
    push(stack, Work::Cases(x.labels.as_slice()))
}

/// The groups of a switch.
#[tactic(auto, using(crate::proofs::Stack::stacks))]
pub fn open_groups<'a>(stack: &mut Vec<Work<'a>>, xs: &'a [JCaseGroup]) -> Result<(), NoMemory>
    ensures text { IfOk result (λ u. todo stack.new.items ≡ joined (map group_tokens xs.now) ++ todo stack.old.items) }
    ensures weight { IfOk result (λ u. weight stack.new.items < total (map group_weight xs.now) + weight stack.old.items) }
{
    let [first, more @ ..] = xs else {
        return Ok(());
    };
    push(stack, Work::Groups(more))?;
    open_group(stack, first)
}

/// A label of a switch, and the bodies of its expression.
#[tactic(auto, using(crate::proofs::Stack::records))]
fn open_case<'a>(alloc: Global, stack: &mut Vec<Work<'a>>, x: &'a JCase) -> Result<(), NoMemory>
    ensures text { IfOk result (λ u. todo stack.new.items ≡ case_tokens x.now ++ todo stack.old.items) }
    ensures weight { IfOk result (λ u. weight stack.new.items ≤ case_weight x.now + weight stack.old.items) }
{
    push_text(stack, switch_text(alloc, &x.label)?, x.bodies.as_slice())
}

/// Labels of a switch.
#[tactic(auto, using(crate::proofs::Stack::stacks))]
pub fn open_cases<'a>(
    alloc: Global,
    stack: &mut Vec<Work<'a>>,
    xs: &'a [JCase],
) -> Result<(), NoMemory>
    ensures text { IfOk result (λ u. todo stack.new.items ≡ joined (map case_tokens xs.now) ++ todo stack.old.items) }
    ensures weight { IfOk result (λ u. weight stack.new.items < total (map case_weight xs.now) + weight stack.old.items) }
{
    let [first, more @ ..] = xs else {
        return Ok(());
    };
    push(stack, Work::Cases(more))?;
    open_case(alloc, stack, first)
}

/// A catch (JLS 14.20).
#[tactic(auto, using(crate::proofs::Stack::records))]
fn open_catch<'a>(alloc: Global, stack: &mut Vec<Work<'a>>, x: &'a JCatch) -> Result<(), NoMemory>
    ensures text { IfOk result (λ u. todo stack.new.items ≡ catch_tokens x.now ++ todo stack.old.items) }
    ensures weight { IfOk result (λ u. weight stack.new.items ≤ catch_weight x.now + weight stack.old.items) }
{
    push_block(stack, x.left, &x.statements, x.right)?;
    push_mark(stack, Mark::CloseRound, x.closes)?;
    push_plain(stack, typed_text(alloc, &x.caught)?)?;
    push_mark(stack, Mark::OpenRound, x.opens)?;
    push_keyword(stack, Keyword::Catch, x.at)
}

/// The catches of a `try`.
#[tactic(auto, using(crate::proofs::Stack::stacks))]
pub fn open_catches<'a>(
    alloc: Global,
    stack: &mut Vec<Work<'a>>,
    xs: &'a [JCatch],
) -> Result<(), NoMemory>
    ensures text { IfOk result (λ u. todo stack.new.items ≡ joined (map catch_tokens xs.now) ++ todo stack.old.items) }
    ensures weight { IfOk result (λ u. weight stack.new.items < total (map catch_weight xs.now) + weight stack.old.items) }
{
    let [first, more @ ..] = xs else {
        return Ok(());
    };
    push(stack, Work::Catches(more))?;
    open_catch(alloc, stack, first)
}

#[tactic(auto, using(crate::proofs::Stack::opened))]
fn push_inside<'a>(stack: &mut Vec<Work<'a>>, body: &'a JBody) -> Result<(), NoMemory>
    ensures text { IfOk result (λ u. todo stack.new.items ≡ body_tokens body.now ++ todo stack.old.items) }
    ensures weight { IfOk result (λ u. weight stack.new.items + 1 ≡ body_weight body.now + weight stack.old.items) }
{
    match body {
        JBody::Statements(xs) => push(stack, Work::Statements(xs, 0)),
        JBody::Members(xs) => push(stack, Work::Members(xs.as_slice())),
    }
}

/// A body with its braces.
#[tactic(auto, using(crate::proofs::Stack::stacks))]
fn push_body<'a>(stack: &mut Vec<Work<'a>>, body: &'a JBody, span: Span) -> Result<(), NoMemory>
    ensures text { IfOk result (λ u. todo stack.new.items ≡ Token.Sign m.OpenCurly span.opens ∷ (body_tokens body.now ++ Token.Sign m.CloseCurly span.closes ∷ todo stack.old.items)) }
    ensures weight { IfOk result (λ u. weight stack.new.items ≡ 1 + (body_weight body.now + weight stack.old.items)) }
{
    push_mark(stack, Mark::CloseCurly, span.closes)?;
    push_inside(stack, body)?;
    push_mark(stack, Mark::OpenCurly, span.opens)
}

/// A token, and the rest of its text.
#[tactic(auto, using(crate::proofs::Stack::stacks))]
fn push_first<'a>(
    stack: &mut Vec<Work<'a>>,
    text: Vec<Written>,
    bodies: &'a [JBody],
    token: Written,
) -> Result<(), NoMemory>
    ensures text { IfOk result (λ u. todo stack.new.items ≡ written_shown token ∷ (filled (laid text.items) (map body_tokens bodies.now) ++ todo stack.old.items)) }
    ensures weight { IfOk result (λ u. weight stack.new.items ≡ 1 + (text_weight (laid text.items) (map body_weight bodies.now) + weight stack.old.items)) }
{
    match push(stack, Work::Text(text, bodies)) {
        Ok(()) => push(stack, Work::Token(token)),
        Err(error) => {
            let_go(token);
            Err(error)
        }
    }
}

/// A mark with the body behind it, and the rest of its text.
#[tactic(auto, using(crate::proofs::Stack::stacks))]
fn push_filled<'a>(
    stack: &mut Vec<Work<'a>>,
    text: Vec<Written>,
    more: &'a [JBody],
    first: &'a JBody,
    mark: Mark,
    at: Position,
    span: Span,
) -> Result<(), NoMemory>
    ensures text { IfOk result (λ u. todo stack.new.items ≡ Token.Sign mark at ∷ Token.Sign m.OpenCurly span.opens ∷ (body_tokens first.now ++ Token.Sign m.CloseCurly span.closes ∷ (filled (laid text.items) (map body_tokens more.now) ++ todo stack.old.items))) }
    ensures weight { IfOk result (λ u. weight stack.new.items ≡ 2 + (body_weight first.now + (text_weight (laid text.items) (map body_weight more.now) + weight stack.old.items))) }
{
    push(stack, Work::Text(text, more))?;
    push_body(stack, first, span)?;
    push_mark(stack, mark, at)
}

/// A token with the first of the bodies where it has one, and the rest of its text.
#[tactic(auto, using(crate::proofs::Stack::firsts))]
fn open_token<'a>(
    stack: &mut Vec<Work<'a>>,
    text: Vec<Written>,
    bodies: &'a [JBody],
    token: Written,
) -> Result<(), NoMemory>
    ensures text { IfOk result (λ u. todo stack.new.items ≡ filled (written_shown token ∷ laid text.items) (map body_tokens bodies.now) ++ todo stack.old.items) }
    ensures weight { IfOk result (λ u. weight stack.new.items < text_weight (written_shown token ∷ laid text.items) (map body_weight bodies.now) + weight stack.old.items) }
{
    let [first, more @ ..] = bodies else {
        return push_first(stack, text, bodies, token);
    };
    match token {
        Written::Token(token) => push_first(stack, text, bodies, Written::Token(token)),
        Written::Block(at, span) => push_filled(stack, text, more, first, Mark::Arrow, at, span),
        Written::Body(at, span) => push_filled(
            stack,
            text,
            more,
            first,
            Mark::CloseRound,
            at,
            span,
        ),
    }
}

/// The tokens of a head, with its bodies.
#[tactic(auto, using(crate::proofs::Stack::stacks))]
pub fn open_text<'a>(
    stack: &mut Vec<Work<'a>>,
    text: Vec<Written>,
    bodies: &'a [JBody],
) -> Result<(), NoMemory>
    ensures text { IfOk result (λ u. todo stack.new.items ≡ filled (laid text.items) (map body_tokens bodies.now) ++ todo stack.old.items) }
    ensures weight { IfOk result (λ u. weight stack.new.items < text_weight (laid text.items) (map body_weight bodies.now) + weight stack.old.items) }
{
    let mut text = text;
    let Some(token) = text.pop() else {
        return Ok(());
    };
    open_token(stack, text, bodies, token)
}

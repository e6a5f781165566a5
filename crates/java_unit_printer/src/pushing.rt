//! Parts that are put on the stack. What is put there last is written first.

ghost use Rattle.std.specs.Prelude.{◌≡◌, ◌+◌, ◌++◌, [], ◌∷◌, IfOk, length, map};
ghost use Rattle.java_tree.specs.Seen.{Token, kind_seen, word_seen};
ghost use Rattle.java_tree.specs.Trees.{tokens};
ghost use Rattle.java_tree.specs.declared.tokens.Mark.TheVariants as m;
ghost use Rattle.java_expr_printer.specs.Shown.{shown};
ghost use Rattle.java_unit_grammar.specs.Tokens.{body_tokens, braced, filled, headed, statement_tokens};
ghost use Rattle.java_unit_printer.specs.Weights.{body_weight, statement_weight, text_weight, total};
ghost use Rattle.java_unit_printer.specs.Work.{laid, todo, weight, work_tokens, work_weight};

use crate::{Work, expression_text, let_go};
use j2k_base::{Name, NoMemory};
use java_expr_printer::{Written, copied};
use java_tree::{JExpr, JToken, Keyword, Mark, Position, TokenKind};
use java_unit_grammar::{JBody, JStatement};
use sqlite_items::Items;
use std::alloc::Global;

/// A part on the stack.
#[tactic(auto, using(crate::proofs::Stack::stacks))]
pub fn push<'a>(stack: &mut Vec<Work<'a>>, work: Work<'a>) -> Result<(), NoMemory>
    ensures text { IfOk result (λ u. todo stack.new.items ≡ work_tokens work.entry ++ todo stack.old.items) }
    ensures weight { IfOk result (λ u. weight stack.new.items ≡ work_weight work.entry + weight stack.old.items) }
{
    stack.push(work)?;
    Ok(())
}

/// A token.
#[tactic(auto, using(crate::proofs::Stack::stacks))]
pub fn push_token<'a>(
    stack: &mut Vec<Work<'a>>,
    kind: TokenKind,
    position: Position,
) -> Result<(), NoMemory>
    ensures text { IfOk result (λ u. todo stack.new.items ≡ kind_seen kind position ∷ todo stack.old.items) }
    ensures weight { IfOk result (λ u. weight stack.new.items ≡ 1 + weight stack.old.items) }
{
    push(
        stack,
        Work::Token(Written::Token(JToken { kind, position })),
    )
}

/// A mark.
#[tactic(auto, using(crate::proofs::Stack::stacks))]
pub fn push_mark<'a>(stack: &mut Vec<Work<'a>>, mark: Mark, at: Position) -> Result<(), NoMemory>
    ensures text { IfOk result (λ u. todo stack.new.items ≡ Token.Sign mark at ∷ todo stack.old.items) }
    ensures weight { IfOk result (λ u. weight stack.new.items ≡ 1 + weight stack.old.items) }
{
    push_token(stack, TokenKind::Mark(mark), at)
}

/// A keyword, or `true`, `false` or `null`.
#[tactic(auto, using(crate::proofs::Stack::stacks))]
pub fn push_keyword<'a>(
    stack: &mut Vec<Work<'a>>,
    word: Keyword,
    at: Position,
) -> Result<(), NoMemory>
    ensures text { IfOk result (λ u. todo stack.new.items ≡ word_seen word at ∷ todo stack.old.items) }
    ensures weight { IfOk result (λ u. weight stack.new.items ≡ 1 + weight stack.old.items) }
{
    push_token(stack, TokenKind::Keyword(word), at)
}

/// A name.
#[tactic(auto, using(crate::proofs::Stack::stacks))]
pub fn push_name<'a>(
    alloc: Global,
    stack: &mut Vec<Work<'a>>,
    name: &Name,
    at: Position,
) -> Result<(), NoMemory>
    ensures text { IfOk result (λ u. todo stack.new.items ≡ Token.Id name.now at ∷ todo stack.old.items) }
    ensures weight { IfOk result (λ u. weight stack.new.items ≡ 1 + weight stack.old.items) }
{
    push_token(stack, TokenKind::Name(copied(alloc, name)?), at)
}

#[tactic(auto, using(crate::proofs::Stack::stacks))]
fn turned(text: Vec<Written>) -> Vec<Written>
    ensures { laid result.items ≡ shown text.items }
{
    let mut text = text;
    text.reverse();
    text
}

/// The tokens of a head, with its bodies.
#[tactic(auto, using(crate::proofs::Stack::stacks))]
pub fn push_text<'a>(
    stack: &mut Vec<Work<'a>>,
    text: Vec<Written>,
    bodies: &'a [JBody],
) -> Result<(), NoMemory>
    ensures text { IfOk result (λ u. todo stack.new.items ≡ filled (shown text.items) (map body_tokens bodies.now) ++ todo stack.old.items) }
    ensures weight { IfOk result (λ u. weight stack.new.items ≡ text_weight (shown text.items) (map body_weight bodies.now) + weight stack.old.items) }
{
    push(stack, Work::Text(turned(text), bodies))
}

/// The tokens of a head that holds no body.
#[tactic(auto, using(crate::proofs::Stack::stacks))]
pub fn push_plain<'a>(stack: &mut Vec<Work<'a>>, text: Vec<Written>) -> Result<(), NoMemory>
    ensures text { IfOk result (λ u. todo stack.new.items ≡ shown text.items ++ todo stack.old.items) }
    ensures weight { IfOk result (λ u. weight stack.new.items ≡ text_weight (shown text.items) [] + weight stack.old.items) }
{
    push_text(stack, text, &[])
}

/// Statements with their braces.
#[tactic(auto, using(crate::proofs::Stack::stacks))]
pub fn push_block<'a>(
    stack: &mut Vec<Work<'a>>,
    left: Position,
    xs: &'a Items<JStatement>,
    right: Position,
) -> Result<(), NoMemory>
    ensures text { IfOk result (λ u. todo stack.new.items ≡ braced left (map statement_tokens xs.now) right ++ todo stack.old.items) }
    ensures weight { IfOk result (λ u. weight stack.new.items ≡ 2 + (total (map statement_weight xs.now) + weight stack.old.items)) }
{
    push_mark(stack, Mark::CloseCurly, right)?;
    push(stack, Work::Statements(xs, 0))?;
    push_mark(stack, Mark::OpenCurly, left)
}

/// A word, and what stands in parentheses behind it.
#[tactic(auto, using(crate::proofs::Stack::stacks))]
pub fn push_headed<'a>(
    stack: &mut Vec<Work<'a>>,
    word: Keyword,
    at: Position,
    lp: Position,
    text: Vec<Written>,
    bodies: &'a Items<JBody>,
    rp: Position,
) -> Result<(), NoMemory>
    ensures text { IfOk result (λ u. todo stack.new.items ≡ headed (word_seen word at) lp (filled (shown text.items) (map body_tokens bodies.now)) rp (todo stack.old.items)) }
    ensures weight { IfOk result (λ u. weight stack.new.items ≡ 3 + (text_weight (shown text.items) (map body_weight bodies.now) + weight stack.old.items)) }
{
    if let Err(error) = push_mark(stack, Mark::CloseRound, rp) {
        let_go(text);
        return Err(error);
    }
    push_text(stack, text, bodies.as_slice())?;
    push_mark(stack, Mark::OpenRound, lp)?;
    push_keyword(stack, word, at)
}

/// A word, and an expression in parentheses behind it.
#[tactic(auto, using(crate::proofs::Stack::stacks))]
pub fn push_test<'a>(
    alloc: Global,
    stack: &mut Vec<Work<'a>>,
    word: Keyword,
    at: Position,
    lp: Position,
    test: &JExpr,
    bodies: &'a Items<JBody>,
    rp: Position,
) -> Result<(), NoMemory>
    ensures text { IfOk result (λ u. todo stack.new.items ≡ headed (word_seen word at) lp (filled (tokens test.now) (map body_tokens bodies.now)) rp (todo stack.old.items)) }
    ensures weight { IfOk result (λ u. weight stack.new.items ≡ 3 + (text_weight (tokens test.now) (map body_weight bodies.now) + weight stack.old.items)) }
{
    let text = expression_text(alloc, test)?;
    push_headed(stack, word, at, lp, text, bodies, rp)
}

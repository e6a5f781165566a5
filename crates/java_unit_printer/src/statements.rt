//! The parts of a statement, put on the stack.

ghost use Rattle.std.specs.Prelude.{◌≡◌, ◌<◌, ◌+◌, ◌++◌, IfOk};
ghost use Rattle.java_unit_grammar.specs.Tokens.{statement_tokens};
ghost use Rattle.java_unit_printer.specs.Forms.{Form, form};
ghost use Rattle.java_unit_printer.specs.Weights.{statement_weight};
ghost use Rattle.java_unit_printer.specs.Work.{todo, weight};

use crate::{
    Work, for_text, lock_text, push, push_block, push_headed, push_keyword, push_mark, push_name,
    push_test, push_text, simple_text,
};
use j2k_base::NoMemory;
use java_tree::{Keyword, Mark};
use java_unit_grammar::JStatement;
use std::alloc::Global;

/// A statement with an expression in parentheses, and nothing for another form.
#[tactic(auto, using(crate::proofs::Stack::opened))]
fn open_tested<'a>(
    alloc: Global,
    stack: &mut Vec<Work<'a>>,
    x: &'a JStatement,
) -> Result<(), NoMemory>
    ensures text { IfOk result (λ u. form x.now ≡ Form.Tested → todo stack.new.items ≡ statement_tokens x.now ++ todo stack.old.items) }
    ensures weight { IfOk result (λ u. form x.now ≡ Form.Tested → weight stack.new.items < statement_weight x.now + weight stack.old.items) }
{
    match x {
        JStatement::If(at, lp, test, bodies, rp, chosen) => {
            push(stack, Work::Statement(chosen))?;
            push_test(alloc, stack, Keyword::If, *at, *lp, test, bodies, *rp)
        }
        JStatement::IfElse(at, lp, test, bodies, rp, chosen, else_at, other) => {
            push(stack, Work::Statement(other))?;
            push_keyword(stack, Keyword::Else, *else_at)?;
            push(stack, Work::Statement(chosen))?;
            push_test(alloc, stack, Keyword::If, *at, *lp, test, bodies, *rp)
        }
        JStatement::While(at, lp, test, bodies, rp, body) => {
            push(stack, Work::Statement(body))?;
            push_test(alloc, stack, Keyword::While, *at, *lp, test, bodies, *rp)
        }
        JStatement::Do(at, body, again, lp, test, bodies, rp, end) => {
            push_mark(stack, Mark::Semicolon, *end)?;
            push_test(alloc, stack, Keyword::While, *again, *lp, test, bodies, *rp)?;
            push(stack, Work::Statement(body))?;
            push_keyword(stack, Keyword::Do, *at)
        }
        JStatement::Switch(at, lp, test, bodies, rp, left, groups, right) => {
            push_mark(stack, Mark::CloseCurly, *right)?;
            push(stack, Work::Groups(groups.as_slice()))?;
            push_mark(stack, Mark::OpenCurly, *left)?;
            push_test(alloc, stack, Keyword::Switch, *at, *lp, test, bodies, *rp)
        }
        _ => Ok(()),
    }
}

/// A `try`, and nothing for another form.
#[tactic(auto, using(crate::proofs::Stack::opened))]
fn open_tried<'a>(stack: &mut Vec<Work<'a>>, x: &'a JStatement) -> Result<(), NoMemory>
    ensures text { IfOk result (λ u. form x.now ≡ Form.Tried → todo stack.new.items ≡ statement_tokens x.now ++ todo stack.old.items) }
    ensures weight { IfOk result (λ u. form x.now ≡ Form.Tried → weight stack.new.items < statement_weight x.now + weight stack.old.items) }
{
    match x {
        JStatement::Try(at, left, inside, right, catches) => {
            push(stack, Work::Catches(catches.as_slice()))?;
            push_block(stack, *left, inside, *right)?;
            push_keyword(stack, Keyword::Try, *at)
        }
        JStatement::TryFinally(at, left, inside, right, catches, last, opens, lasts, closes) => {
            push_block(stack, *opens, lasts, *closes)?;
            push_keyword(stack, Keyword::Finally, *last)?;
            push(stack, Work::Catches(catches.as_slice()))?;
            push_block(stack, *left, inside, *right)?;
            push_keyword(stack, Keyword::Try, *at)
        }
        _ => Ok(()),
    }
}

/// A statement (JLS 14).
#[tactic(auto, using(crate::proofs::Stack::opened))]
pub fn open_statement<'a>(
    alloc: Global,
    stack: &mut Vec<Work<'a>>,
    x: &'a JStatement,
) -> Result<(), NoMemory>
    ensures text { IfOk result (λ u. todo stack.new.items ≡ statement_tokens x.now ++ todo stack.old.items) }
    ensures weight { IfOk result (λ u. weight stack.new.items < statement_weight x.now + weight stack.old.items) }
{
    match x {
        JStatement::Simple(head, bodies, end) => {
            push_mark(stack, Mark::Semicolon, *end)?;
            push_text(stack, simple_text(alloc, head)?, bodies.as_slice())
        }
        JStatement::Block(left, inside, right) => { push_block(stack, *left, inside, *right) }
        JStatement::Labeled(name, at, colon, body) => {
            push(stack, Work::Statement(body))?;
            push_mark(stack, Mark::Colon, *colon)?;
            push_name(alloc, stack, name, *at)
        }
        JStatement::For(at, lp, head, bodies, rp, body) => {
            push(stack, Work::Statement(body))?;
            let text = for_text(alloc, head)?;
            push_headed(stack, Keyword::For, *at, *lp, text, bodies, *rp)
        }
        JStatement::Synchronized(at, lp, lock, bodies, rp, left, inside, right) => {
            push_block(stack, *left, inside, *right)?;
            let text = lock_text(alloc, lock)?;
            push_headed(stack, Keyword::Synchronized, *at, *lp, text, bodies, *rp)
        }
        JStatement::Try(..) | JStatement::TryFinally(..) => open_tried(stack, x),
        _ => open_tested(alloc, stack, x),
    }
}

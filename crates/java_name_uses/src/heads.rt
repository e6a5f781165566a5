// What statements hold besides other statements.
ghost use Rattle.std.specs.Prelude.{◌≡◌, ◌++◌, IfOk, map};
ghost use Rattle.java_name_uses.specs.Heads as s;

use crate::exprs::{expression, expressions};
use crate::types::{declared_type, type_name};
use crate::uses::{Naming, Sign, Uses, Word, put_name, put_sign, put_word};
use j2k_base::NoMemory;
use java_statement_grammar::{
    JDeclaration, JDeclarator, JForHead, JForStart, JLabelName, JLock, JSimple, JSwitchLabel,
    JValue,
};
use java_tree::{JExpr, Position};
use std::alloc::Global;

/// The value of a variable, where one stands (JLS 14.4.2).
pub fn initial(alloc: Global, out: &mut Uses, x: &Option<JValue>) -> Result<(), NoMemory>
    ensures { IfOk result (λ u. out.new ≡ out.old ++ s.initial x.now) }
{
    match x {
        None => Ok(()),
        Some(x) => expression(alloc, out, &x.tree),
    }
}

fn declarators(alloc: Global, out: &mut Uses, xs: &[JDeclarator]) -> Result<(), NoMemory>
    ensures { IfOk result (λ u. out.new ≡ out.old ++ s.declarators xs.now) }
{
    for x in xs {
        put_name(alloc, out, Naming::Variable, &x.name, x.at)?;
        initial(alloc, out, &x.value)?;
    }
    Ok(())
}

fn declaration(alloc: Global, out: &mut Uses, x: &JDeclaration) -> Result<(), NoMemory>
    ensures { IfOk result (λ u. out.new ≡ out.old ++ s.declaration x.now) }
{
    declared_type(alloc, out, &x.kind)?;
    declarators(alloc, out, x.names.as_slice())
}

fn maybe(alloc: Global, out: &mut Uses, x: &Option<JExpr>) -> Result<(), NoMemory>
    ensures { IfOk result (λ u. out.new ≡ out.old ++ s.maybe x.now) }
{
    match x {
        None => Ok(()),
        Some(x) => expression(alloc, out, x),
    }
}

/// A jump to a label, or one without.
fn jump(
    alloc: Global,
    out: &mut Uses,
    word: Word,
    naming: Naming,
    at: Position,
    label: &Option<JLabelName>,
) -> Result<(), NoMemory>
    ensures { IfOk result (λ u. out.new ≡ out.old ++ s.jump word naming at label.now) }
{
    match label {
        None => put_word(out, word, at),
        Some(label) => put_name(alloc, out, naming, &label.name, label.at),
    }
}

fn constructor_call(alloc: Global, out: &mut Uses, args: &[JExpr]) -> Result<(), NoMemory>
    ensures { IfOk result (λ u. out.new ≡ out.old ++ s.constructor_call args.now) }
{
    put_sign(out, Sign::OpenArguments)?;
    expressions(alloc, out, args)?;
    put_sign(out, Sign::Close)
}

/// What stands before the `;` of a statement (JLS 14.4 to 14.18).
pub fn simple(alloc: Global, out: &mut Uses, x: &JSimple) -> Result<(), NoMemory>
    ensures { IfOk result (λ u. out.new ≡ out.old ++ s.simple x.now) }
{
    match x {
        JSimple::Empty => Ok(()),
        JSimple::Declaration(x) => declaration(alloc, out, x),
        JSimple::Expression(x) => expression(alloc, out, x),
        JSimple::Break(at, label) => jump(alloc, out, Word::Break, Naming::BreakTo, *at, label),
        JSimple::Continue(at, label) => {
            jump(alloc, out, Word::Continue, Naming::ContinueTo, *at, label)
        }
        JSimple::Return(at, x) => {
            put_word(out, Word::Return, *at)?;
            maybe(alloc, out, x)
        }
        JSimple::Throw(_, x) => expression(alloc, out, x),
        JSimple::ThisCall(_, _, args, ..) => constructor_call(alloc, out, args.as_slice()),
        JSimple::SuperCall(_, _, args, ..) => constructor_call(alloc, out, args.as_slice()),
    }
}

fn for_start(alloc: Global, out: &mut Uses, x: &JForStart) -> Result<(), NoMemory>
    ensures { IfOk result (λ u. out.new ≡ out.old ++ s.for_start x.now) }
{
    match x {
        JForStart::Declaration(x) => declaration(alloc, out, x),
        JForStart::Expressions(xs, _) => expressions(alloc, out, xs.as_slice()),
    }
}

/// What stands in the parentheses of a `for` (JLS 14.14).
pub fn for_head(alloc: Global, out: &mut Uses, x: &JForHead) -> Result<(), NoMemory>
    ensures { IfOk result (λ u. out.new ≡ out.old ++ s.for_head x.now) }
{
    match x {
        JForHead::Basic(start, _, test, _, updates, _) => {
            for_start(alloc, out, start)?;
            maybe(alloc, out, test)?;
            expressions(alloc, out, updates.as_slice())
        }
        JForHead::Each(_, kind, name, at, _, walked) => {
            declared_type(alloc, out, kind)?;
            expression(alloc, out, walked)?;
            put_name(alloc, out, Naming::Variable, name, *at)
        }
    }
}

/// The lock of a synchronized statement (JLS 14.19).
pub fn lock(alloc: Global, out: &mut Uses, x: &JLock) -> Result<(), NoMemory>
    ensures { IfOk result (λ u. out.new ≡ out.old ++ s.lock x.now) }
{
    match x {
        JLock::Expression(x) => expression(alloc, out, x),
        JLock::Class(name, ..) => type_name(alloc, out, name),
    }
}

/// A label of a switch (JLS 14.11).
pub fn label(alloc: Global, out: &mut Uses, x: &JSwitchLabel) -> Result<(), NoMemory>
    ensures { IfOk result (λ u. out.new ≡ out.old ++ s.label x.now) }
{
    match x {
        JSwitchLabel::Case(_, x, _) => expression(alloc, out, x),
        JSwitchLabel::Default(..) => Ok(()),
    }
}

// Statements.
ghost use Rattle.std.specs.Prelude.{◌≡◌, ◌++◌, [], IfOk, map};
ghost use Rattle.java_body_uses.specs.Bodies as s;
ghost use Rattle.java_body_uses.specs.Filling as f;
ghost use Rattle.java_name_uses.specs.Uses as n;

use crate::heads::{
    for_uses, is_block, label_uses, lock_uses, put_all_again, put_before, simple_uses, value_uses,
};
use j2k_base::NoMemory;
use java_name_uses::{Naming, Sign, Use, Uses, parameter, put_name, put_sign};
use java_unit_grammar::{JBody, JCase, JCaseGroup, JCatch, JStatement};
use std::alloc::Global;

/// The block of a lambda; an anonymous class isn't gone into.
#[cycle(bodies)]
#[tactic(auto, unfolding(crate::specs::Bodies::body_uses, crate::specs::Bodies::statement_uses, crate::specs::Bodies::case_uses, crate::specs::Bodies::group_uses, crate::specs::Bodies::catch_uses))]
fn body(alloc: Global, out: &mut Uses, x: &JBody) -> Result<(), NoMemory>
    ensures { IfOk result (λ u. out.new ≡ out.old ++ s.body_uses x.now) }
{
    match x {
        JBody::Statements(xs) => statements(alloc, out, xs.as_slice()),
        JBody::Members(_) => Ok(()),
    }
}

/// What a head says up to its first place, with this body there; answers what stands behind it.
#[cycle(bodies)]
fn put_placed<'a>(
    alloc: Global,
    out: &mut Uses,
    head: &'a [Use],
    inner: &JBody,
) -> Result<&'a [Use], NoMemory>
    ensures said { IfOk result (λ more. out.new ≡ out.old ++ (f.before head.now ++ f.placed (f.from_place head.now) (s.body_uses inner.now))) }
    ensures left { IfOk result (λ more. more.now ≡ f.behind (f.from_place head.now)) }
{
    match put_before(alloc, out, head)? {
        [] => Ok(&[]),
        [x, more @ ..] => {
            if is_block(x) {
                body(alloc, out, inner)?;
            }
            Ok(more)
        }
    }
}

/// What a head says, with its bodies in their places.
#[cycle(bodies)]
fn put_filled(alloc: Global, out: &mut Uses, head: &[Use], bodies: &[JBody]) -> Result<(), NoMemory>
    ensures { IfOk result (λ u. out.new ≡ out.old ++ s.filled head.now (map s.body_uses bodies.now)) }
{
    let mut left = head;
    for inner in bodies {
        left = put_placed(alloc, out, left, inner)?;
    }
    put_all_again(alloc, out, left)
}

/// What a head says that has no bodies.
#[tactic(auto, using(crate::proofs::Filling::filled_none))]
fn put_whole(out: &mut Uses, head: Uses) -> Result<(), NoMemory>
    ensures { IfOk result (λ u. out.new ≡ out.old ++ s.filled head []) }
{
    out.append(head)?;
    Ok(())
}

/// The same as `put_filled`; most heads have no bodies and are moved as they are.
#[cycle(bodies)]
pub(crate) fn filled(
    alloc: Global,
    out: &mut Uses,
    head: Uses,
    bodies: &[JBody],
) -> Result<(), NoMemory>
    ensures { IfOk result (λ u. out.new ≡ out.old ++ s.filled head (map s.body_uses bodies.now)) }
{
    match bodies {
        [] => put_whole(out, head),
        _ => put_filled(alloc, out, head.as_slice(), bodies),
    }
}

/// Statements that are a scope of their own.
#[cycle(bodies)]
fn block(alloc: Global, out: &mut Uses, xs: &[JStatement]) -> Result<(), NoMemory>
    ensures { IfOk result (λ u. out.new ≡ out.old ++ s.scoped Sign.Open (s.statements xs.now)) }
{
    put_sign(out, Sign::Open)?;
    statements(alloc, out, xs)?;
    put_sign(out, Sign::Close)
}

#[cycle(bodies)]
#[tactic(auto, unfolding(crate::specs::Bodies::body_uses, crate::specs::Bodies::statement_uses, crate::specs::Bodies::case_uses, crate::specs::Bodies::group_uses, crate::specs::Bodies::catch_uses))]
fn cases(alloc: Global, out: &mut Uses, xs: &[JCase]) -> Result<(), NoMemory>
    ensures { IfOk result (λ u. out.new ≡ out.old ++ n.all (map s.case_uses xs.now)) }
{
    for x in xs {
        let head = label_uses(alloc, &x.label)?;
        filled(alloc, out, head, x.bodies.as_slice())?;
    }
    Ok(())
}

#[cycle(bodies)]
#[tactic(auto, unfolding(crate::specs::Bodies::body_uses, crate::specs::Bodies::statement_uses, crate::specs::Bodies::case_uses, crate::specs::Bodies::group_uses, crate::specs::Bodies::catch_uses))]
fn groups(alloc: Global, out: &mut Uses, xs: &[JCaseGroup]) -> Result<(), NoMemory>
    ensures { IfOk result (λ u. out.new ≡ out.old ++ n.all (map s.group_uses xs.now)) }
{
    for x in xs {
        cases(alloc, out, x.labels.as_slice())?;
        statements(alloc, out, x.statements.as_slice())?;
    }
    Ok(())
}

#[cycle(bodies)]
#[tactic(auto, unfolding(crate::specs::Bodies::body_uses, crate::specs::Bodies::statement_uses, crate::specs::Bodies::case_uses, crate::specs::Bodies::group_uses, crate::specs::Bodies::catch_uses))]
fn catches(alloc: Global, out: &mut Uses, xs: &[JCatch]) -> Result<(), NoMemory>
    ensures { IfOk result (λ u. out.new ≡ out.old ++ n.all (map s.catch_uses xs.now)) }
{
    for x in xs {
        put_sign(out, Sign::Open)?;
        parameter(alloc, out, &x.caught)?;
        statements(alloc, out, x.statements.as_slice())?;
        put_sign(out, Sign::Close)?;
    }
    Ok(())
}

/// Statements, one after the other (JLS 14.2).
#[cycle(bodies)]
pub fn statements(alloc: Global, out: &mut Uses, xs: &[JStatement]) -> Result<(), NoMemory>
    ensures { IfOk result (λ u. out.new ≡ out.old ++ s.statements xs.now) }
{
    for x in xs {
        statement(alloc, out, x)?;
    }
    Ok(())
}

/// A statement (JLS 14).
#[cycle(bodies)]
#[tactic(auto, unfolding(crate::specs::Bodies::body_uses, crate::specs::Bodies::statement_uses, crate::specs::Bodies::case_uses, crate::specs::Bodies::group_uses, crate::specs::Bodies::catch_uses))]
fn statement(alloc: Global, out: &mut Uses, x: &JStatement) -> Result<(), NoMemory>
    ensures { IfOk result (λ u. out.new ≡ out.old ++ s.statement_uses x.now) }
{
    match x {
        JStatement::Simple(head, bodies, _) => {
            let head = simple_uses(alloc, head)?;
            filled(alloc, out, head, bodies.as_slice())
        }
        JStatement::Block(_, xs, _) => block(alloc, out, xs.as_slice()),
        JStatement::Labeled(name, at, _, inner) => {
            put_name(alloc, out, Naming::Label, name, *at)?;
            statement(alloc, out, inner.get())?;
            put_sign(out, Sign::Close)
        }
        JStatement::If(_, _, test, bodies, _, then) => {
            let head = value_uses(alloc, test)?;
            filled(alloc, out, head, bodies.as_slice())?;
            statement(alloc, out, then.get())
        }
        JStatement::IfElse(_, _, test, bodies, _, then, _, other) => {
            let head = value_uses(alloc, test)?;
            filled(alloc, out, head, bodies.as_slice())?;
            statement(alloc, out, then.get())?;
            statement(alloc, out, other.get())
        }
        JStatement::While(_, _, test, bodies, _, inner) => {
            put_sign(out, Sign::OpenLoop)?;
            let head = value_uses(alloc, test)?;
            filled(alloc, out, head, bodies.as_slice())?;
            statement(alloc, out, inner.get())?;
            put_sign(out, Sign::Close)
        }
        JStatement::Do(_, inner, _, _, test, bodies, ..) => {
            put_sign(out, Sign::OpenLoop)?;
            statement(alloc, out, inner.get())?;
            let head = value_uses(alloc, test)?;
            filled(alloc, out, head, bodies.as_slice())?;
            put_sign(out, Sign::Close)
        }
        JStatement::For(_, _, head, bodies, _, inner) => {
            put_sign(out, Sign::OpenLoop)?;
            let head = for_uses(alloc, head)?;
            filled(alloc, out, head, bodies.as_slice())?;
            statement(alloc, out, inner.get())?;
            put_sign(out, Sign::Close)
        }
        JStatement::Switch(_, _, subject, bodies, _, _, xs, _) => {
            let head = value_uses(alloc, subject)?;
            filled(alloc, out, head, bodies.as_slice())?;
            put_sign(out, Sign::OpenSwitch)?;
            groups(alloc, out, xs.as_slice())?;
            put_sign(out, Sign::Close)
        }
        JStatement::Synchronized(_, _, held, bodies, _, _, xs, _) => {
            let head = lock_uses(alloc, held)?;
            filled(alloc, out, head, bodies.as_slice())?;
            block(alloc, out, xs.as_slice())
        }
        JStatement::Try(_, _, xs, _, caught) => {
            block(alloc, out, xs.as_slice())?;
            catches(alloc, out, caught.as_slice())
        }
        JStatement::TryFinally(_, _, xs, _, caught, _, _, lasts, _) => {
            block(alloc, out, xs.as_slice())?;
            catches(alloc, out, caught.as_slice())?;
            block(alloc, out, lasts.as_slice())
        }
    }
}

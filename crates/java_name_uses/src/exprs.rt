// Expressions.
ghost use Rattle.std.specs.Prelude.{◌≡◌, ◌++◌, IfOk, map};
ghost use Rattle.java_name_uses.specs.Uses as s;

use crate::types::{created, declared_type, lambda_parameters};
use crate::uses::{Naming, Sign, Uses, Word, put_name, put_sign, put_word};
use j2k_base::{Name, NoMemory};
use java_tree::{JCreated, JExpr, JParams, JType, Position, Span};
use std::alloc::Global;

/// An expression that is used as a value (JLS 15).
#[cycle(uses)]
pub fn expression(alloc: Global, out: &mut Uses, x: &JExpr) -> Result<(), NoMemory>
    ensures { IfOk result (λ u. out.new ≡ out.old ++ s.value (s.uses x.now)) }
{
    part(alloc, out, x)?;
    put_sign(out, Sign::Value)
}

/// What an expression says, before it is known whether it is a value or a part of a name.
#[cycle(uses)]
#[tactic(auto, using(crate::proofs::Parts::of_exprs))]
fn part(alloc: Global, out: &mut Uses, x: &JExpr) -> Result<(), NoMemory>
    ensures { IfOk result (λ u. out.new ≡ out.old ++ s.uses x.now) }
{
    form(alloc, out, x)
}

#[cycle(uses)]
pub(crate) fn expressions(alloc: Global, out: &mut Uses, xs: &[JExpr]) -> Result<(), NoMemory>
    ensures { IfOk result (λ u. out.new ≡ out.old ++ s.values (map s.uses xs.now)) }
{
    for x in xs {
        expression(alloc, out, x)?;
    }
    Ok(())
}

/// A method that is called, and the arguments.
#[cycle(uses)]
fn call(
    alloc: Global,
    out: &mut Uses,
    naming: Naming,
    name: &Name,
    at: Position,
    args: &[JExpr],
) -> Result<(), NoMemory>
    ensures { IfOk result (λ u. out.new ≡ out.old ++ (s.named naming name.now at ++ s.values (map s.uses args.now))) }
{
    put_name(alloc, out, naming, name, at)?;
    expressions(alloc, out, args)
}

fn opened(alloc: Global, out: &mut Uses, params: &JParams) -> Result<(), NoMemory>
    ensures { IfOk result (λ u. out.new ≡ out.old ++ (s.signed Sign.OpenLambda ++ s.lambda_parameters params.now)) }
{
    put_sign(out, Sign::OpenLambda)?;
    lambda_parameters(alloc, out, params)
}

#[cycle(uses)]
fn lambda(alloc: Global, out: &mut Uses, params: &JParams, body: &JExpr) -> Result<(), NoMemory>
    ensures { IfOk result (λ u. out.new ≡ out.old ++ s.lambda params.now (s.uses body.now)) }
{
    opened(alloc, out, params)?;
    expression(alloc, out, body)?;
    put_sign(out, Sign::Close)
}

fn lambda_block(alloc: Global, out: &mut Uses, params: &JParams) -> Result<(), NoMemory>
    ensures { IfOk result (λ u. out.new ≡ out.old ++ s.lambda_block params.now) }
{
    opened(alloc, out, params)?;
    put_sign(out, Sign::Block)?;
    put_sign(out, Sign::Close)
}

#[cycle(uses)]
fn created_with(
    alloc: Global,
    out: &mut Uses,
    made: &JCreated,
    args: &[JExpr],
) -> Result<(), NoMemory>
    ensures { IfOk result (λ u. out.new ≡ out.old ++ (s.created made.now ++ s.values (map s.uses args.now))) }
{
    created(alloc, out, made)?;
    expressions(alloc, out, args)
}

#[cycle(uses)]
fn creation(
    alloc: Global,
    out: &mut Uses,
    at: Position,
    made: &JCreated,
    args: &[JExpr],
    body: &Option<Span>,
) -> Result<(), NoMemory>
    ensures { IfOk result (λ u. out.new ≡ out.old ++ s.creation at made.now (map s.uses args.now) body.now) }
{
    match body {
        None => created_with(alloc, out, made, args),
        Some(_) => {
            put_word(out, Word::NotBuilt, at)?;
            created_with(alloc, out, made, args)?;
            put_sign(out, Sign::Skipped)
        }
    }
}

#[cycle(uses)]
fn form(alloc: Global, out: &mut Uses, x: &JExpr) -> Result<(), NoMemory>
    ensures { IfOk result (λ u. out.new ≡ out.old ++ s.form x.now) }
{
    match x {
        JExpr::Literal(..) | JExpr::MinusLeast(..) => Ok(()),
        JExpr::Name(name, at) => put_name(alloc, out, Naming::Expression, name, *at),
        JExpr::This(at) => put_word(out, Word::This, *at),
        JExpr::Paren(_, inner, _) => expression(alloc, out, inner.get()),
        JExpr::Postfix(left, ..) => expression(alloc, out, left.get()),
        JExpr::Prefix(_, _, inner) => expression(alloc, out, inner.get()),
        JExpr::Call(name, at, _, args, ..) => {
            call(alloc, out, Naming::Method, name, *at, args.as_slice())
        }
        JExpr::SuperCall(above, _, name, at, _, args, ..) => {
            put_word(out, Word::Super, *above)?;
            call(alloc, out, Naming::SuperMethod, name, *at, args.as_slice())
        }
        JExpr::Field(left, _, name, at) => {
            part(alloc, out, left.get())?;
            put_name(alloc, out, Naming::Selected, name, *at)
        }
        JExpr::Method(left, _, name, at, _, args, ..) => {
            part(alloc, out, left.get())?;
            call(
                alloc,
                out,
                Naming::SelectedMethod,
                name,
                *at,
                args.as_slice(),
            )
        }
        JExpr::Element(left, _, index, _) => {
            expression(alloc, out, left.get())?;
            expression(alloc, out, index.get())
        }
        JExpr::Binary(left, _, _, right) => {
            expression(alloc, out, left.get())?;
            expression(alloc, out, right.get())
        }
        JExpr::Assign(left, _, _, right) => {
            expression(alloc, out, left.get())?;
            expression(alloc, out, right.get())
        }
        JExpr::Cast(_, kind, _, inner) => {
            declared_type(alloc, out, kind)?;
            expression(alloc, out, inner.get())
        }
        JExpr::NewArray(_, kind, _, size, ..) => {
            declared_type(alloc, out, kind)?;
            expression(alloc, out, size.get())
        }
        JExpr::Instanceof(left, _, kind) => {
            expression(alloc, out, left.get())?;
            declared_type(alloc, out, kind)
        }
        JExpr::Conditional(test, _, left, _, right) => {
            expression(alloc, out, test.get())?;
            expression(alloc, out, left.get())?;
            expression(alloc, out, right.get())
        }
        JExpr::Lambda(params, _, body) => lambda(alloc, out, params, body.get()),
        JExpr::LambdaBlock(params, ..) => lambda_block(alloc, out, params),
        JExpr::New(at, made, _, args, _, _, body) => {
            creation(alloc, out, *at, made, args.as_slice(), body)
        }
        JExpr::NewFilled(_, kind, _, _, values, ..) => {
            declared_type(alloc, out, kind)?;
            expressions(alloc, out, values.as_slice())
        }
        JExpr::Braces(_, values, ..) => expressions(alloc, out, values.as_slice()),
    }
}

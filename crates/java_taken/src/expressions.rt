//! Expressions.

ghost use Rattle.std.specs.Prelude.{◌≡◌};
ghost use Rattle.java_taken.specs.Expressions as s;
ghost use Rattle.java_taken.specs.Judged.{Judges};
ghost use Rattle.java_taken.specs.Places as p;

use crate::judged::Refusal;
use crate::names::Names;
use crate::places::first_at;
use j2k_base::{Const, Kind, Name, Op2, Value};
use java_tree::{BinaryOp, JExpr, JLiteral, Position};
use java_typed::{TExpr, TType};
use sqlite_items::Boxed;
use std::alloc::Global;

/// The largest `int`.
pub(crate) const MAX_NUMBER: u32 = 2_147_483_647;

fn operator_of(op: BinaryOp) -> Option<Op2>
    ensures { result ≡ s.operator_of op }
{
    match op {
        BinaryOp::Add => Some(Op2::Add),
        BinaryOp::Subtract => Some(Op2::Sub),
        BinaryOp::Multiply => Some(Op2::Mul),
        _ => None,
    }
}

#[tactic(auto, unfolding(crate::specs::Expressions::is_number))]
fn is_number(x: &TExpr) -> bool
    ensures { result ≡ s.is_number x.now }
{
    matches!(x, TExpr::Literal(..))
}

fn local(alloc: Global, names: &Names, name: &Name, at: Position) -> Result<Boxed<TExpr>, Refusal>
    ensures { Judges (s.local_of names.now name.now at) result }
{
    if !names.contains(name.as_str()) {
        return Err(Refusal::Open(at));
    }
    let name = Name::from_str(alloc, name.as_str())?;
    let kind = TType::Number(Kind::Int);
    Ok(Boxed::new(alloc, TExpr::Local(name, at, kind))?)
}

fn number(alloc: Global, literal: &JLiteral, at: Position) -> Result<Boxed<TExpr>, Refusal>
    ensures { Judges (s.number_of literal.now at) result }
{
    match literal {
        JLiteral::Integer(n) if *n <= MAX_NUMBER => {
            let value = Value::Number(Const::Int(*n as i32));
            Ok(Boxed::new(alloc, TExpr::Literal(value, at))?)
        }
        _ => Err(Refusal::Open(at)),
    }
}

fn paren(alloc: Global, at: Position, inner: Boxed<TExpr>) -> Result<Boxed<TExpr>, Refusal>
    ensures { Judges (s.paren_of at inner) result }
{
    if is_number(inner.get()) {
        return Err(Refusal::Open(at));
    }
    Ok(Boxed::new(alloc, TExpr::Paren(at, inner))?)
}

/// The operator of the whole expression between its operands.
fn binary(
    alloc: Global,
    whole: &JExpr,
    left: Boxed<TExpr>,
    op: Op2,
    at: Position,
    right: Boxed<TExpr>,
) -> Result<Boxed<TExpr>, Refusal>
    ensures { Judges (s.binary_of (p.first_at whole.now) left op at right) result }
{
    if is_number(left.get()) && is_number(right.get()) {
        return Err(Refusal::Open(first_at(whole)));
    }
    let tree = TExpr::Binary {
        left,
        op,
        at,
        right,
    };
    Ok(Boxed::new(alloc, tree)?)
}

/// The typed tree of an expression after the declarations of the names (JLS 15).
#[tactic(auto, using(crate::proofs::Variants::forms))]
pub(crate) fn expression(alloc: Global, names: &Names, x: &JExpr) -> Result<Boxed<TExpr>, Refusal>
    ensures { Judges (s.expression names.now x.now) result }
{
    match x {
        JExpr::Name(name, at) => local(alloc, names, name, *at),
        JExpr::Literal(literal, at) => number(alloc, literal, *at),
        JExpr::Paren(at, inner, _) => {
            let inner = expression(alloc, names, inner.get())?;
            paren(alloc, *at, inner)
        }
        JExpr::Binary(left, op, at, right) => match operator_of(*op) {
            Some(operator) => {
                let first = expression(alloc, names, left.get())?;
                let second = expression(alloc, names, right.get())?;
                binary(alloc, x, first, operator, *at, second)
            }
            None => Err(Refusal::Open(first_at(x))),
        },
        JExpr::This(..)
        | JExpr::Call(..)
        | JExpr::SuperCall(..)
        | JExpr::Field(..)
        | JExpr::Method(..)
        | JExpr::Element(..)
        | JExpr::Postfix(..)
        | JExpr::Prefix(..)
        | JExpr::MinusLeast(..)
        | JExpr::Cast(..)
        | JExpr::Instanceof(..)
        | JExpr::Conditional(..)
        | JExpr::Assign(..)
        | JExpr::Lambda(..)
        | JExpr::LambdaBlock(..)
        | JExpr::New(..)
        | JExpr::NewArray(..)
        | JExpr::NewFilled(..)
        | JExpr::Braces(..) => Err(Refusal::Open(first_at(x))),
    }
}

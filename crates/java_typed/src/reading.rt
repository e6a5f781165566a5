// What an expression's tree says at once: its first token and its type.

ghost use Rattle.std.specs.Prelude.{◌≡◌};
ghost use Rattle.java_typed.specs.Reading as s;
ghost use Rattle.java_typed.specs.Reading.{AreNumbered};
ghost use Rattle.java_typed.specs.declared.types.TResult.TheVariants as r;
ghost use Rattle.java_typed.specs.declared.types.TType.TheVariants as t;

use crate::{ClassRef, Conversion, ResultView, TExpr, TResult, TType, TypeView, UnaryOp};
use j2k_base::{Const, Kind, Op2, Value};
use java_tree::Position;

/// The first token of an expression.
#[tactic(auto, unfolding(crate::specs::Reading::first_at))]
pub fn first_at(x: &TExpr) -> Position
    ensures { result ≡ s.first_at x.now }
{
    match x {
        TExpr::Literal(_, at)
        | TExpr::Null(at)
        | TExpr::This { at, .. }
        | TExpr::Paren(at, _)
        | TExpr::Local(_, at, _)
        | TExpr::Unary(_, at, _)
        | TExpr::Cast(at, ..)
        | TExpr::New { at, .. }
        | TExpr::NewArray(at, ..)
        | TExpr::NewFilled(at, ..) => *at,
        TExpr::Static { first, .. } | TExpr::StaticCall { first, .. } => *first,
        TExpr::Constant(_, first)
        | TExpr::Field { object: first, .. }
        | TExpr::Length(first, _)
        | TExpr::Element(first, ..)
        | TExpr::VirtualCall { object: first, .. }
        | TExpr::ExactCall { object: first, .. }
        | TExpr::Through(first, _)
        | TExpr::Binary { left: first, .. }
        | TExpr::Concat(first, ..)
        | TExpr::Same { left: first, .. }
        | TExpr::Instanceof(first, ..)
        | TExpr::Convert(_, first)
        | TExpr::Conditional { test: first, .. }
        | TExpr::Assign(first, ..)
        | TExpr::Compound { target: first, .. }
        | TExpr::Append(first, ..) => first_at(first.get()),
        TExpr::Step {
            is_prefix,
            at,
            target,
            ..
        } => {
            if *is_prefix {
                *at
            } else {
                first_at(target.get())
            }
        }
        TExpr::Lambda(lambda, _) | TExpr::LambdaBlock(lambda, _) => lambda.at,
    }
}

/// A type with its parts where they stand.
pub fn viewed<'a>(x: &'a TType) -> TypeView<'a>
    ensures { s.shown result ≡ x.now }
{
    match x {
        TType::Number(kind) => TypeView::Number(*kind),
        TType::Boolean => TypeView::Boolean,
        TType::Null => TypeView::Null,
        TType::Class(class, arguments) => TypeView::Class(*class, arguments.as_slice()),
        TType::Variable(class, place) => TypeView::Variable(*class, *place),
        TType::Array(element) => TypeView::Array(element.get()),
    }
}

fn value<'a>(x: &'a TType) -> ResultView<'a>
    ensures { s.result_shown result ≡ r.Value x.now }
{
    ResultView::Value(viewed(x))
}

fn result_viewed<'a>(x: &'a TResult) -> ResultView<'a>
    ensures { s.result_shown result ≡ x.now }
{
    match x {
        TResult::Void => ResultView::Void,
        TResult::Value(x) => value(x),
    }
}

fn library<'a>(number: u8) -> TypeView<'a>
    ensures { s.shown result ≡ s.library number }
{
    TypeView::Class(ClassRef::Library(number), &[])
}

fn boolean<'a>() -> ResultView<'a>
    ensures { s.result_shown result ≡ r.Value t.Boolean }
{
    ResultView::Value(TypeView::Boolean)
}

fn literal<'a>(x: &Value) -> TypeView<'a>
    ensures { s.shown result ≡ s.value_type x.now }
{
    match x {
        Value::Number(Const::Byte(_)) => TypeView::Number(Kind::Byte),
        Value::Number(Const::Short(_)) => TypeView::Number(Kind::Short),
        Value::Number(Const::Char(_)) => TypeView::Number(Kind::Char),
        Value::Number(Const::Int(_)) => TypeView::Number(Kind::Int),
        Value::Number(Const::Long(_)) => TypeView::Number(Kind::Long),
        Value::Number(Const::Bool(_)) => TypeView::Boolean,
        Value::Text(_) => library(STRING),
    }
}

const STRING: u8 = 1;

const BOOLEAN: u8 = 8;

fn box_number(kind: Kind) -> u8
    ensures { result ≡ s.box_number kind }
{
    match kind {
        Kind::Int => 3,
        Kind::Long => 4,
        Kind::Short => 5,
        Kind::Byte => 6,
        Kind::Char => 7,
    }
}

fn converted<'a>(x: Conversion) -> TypeView<'a>
    ensures { s.shown result ≡ s.converted x }
{
    match x {
        Conversion::Number(_, kind) | Conversion::Unbox(kind) => TypeView::Number(kind),
        Conversion::Box(kind) => library(box_number(kind)),
        Conversion::BoxBoolean => library(BOOLEAN),
        Conversion::UnboxBoolean => TypeView::Boolean,
    }
}

fn unary<'a>(op: UnaryOp, kind: ResultView<'a>) -> ResultView<'a>
    ensures { s.result_shown result ≡ s.unary_type op (s.result_shown kind.entry) }
{
    match op {
        UnaryOp::Plus | UnaryOp::Minus | UnaryOp::Complement => kind,
        UnaryOp::Not => boolean(),
    }
}

fn binary<'a>(op: Op2, kind: ResultView<'a>) -> ResultView<'a>
    ensures { s.result_shown result ≡ s.binary_type op (s.result_shown kind.entry) }
{
    match op {
        Op2::Lt | Op2::Le | Op2::Gt | Op2::Ge | Op2::Eq | Op2::Ne | Op2::AndAlso | Op2::OrElse =>
            boolean(),
        Op2::Add
        | Op2::Sub
        | Op2::Mul
        | Op2::Div
        | Op2::Rem
        | Op2::Shl
        | Op2::Shr
        | Op2::Ushr
        | Op2::And
        | Op2::Or
        | Op2::Xor => kind,
    }
}

/// The type of an expression; a call of a void method has none (JLS 15.12.3).
#[tactic(auto, unfolding(crate::specs::Reading::type_of))]
pub fn type_of<'a>(x: &'a TExpr) -> ResultView<'a>
    ensures { s.result_shown result ≡ s.type_of x.now }
{
    match x {
        TExpr::Literal(v, _) => ResultView::Value(literal(v)),
        TExpr::Null(_) => ResultView::Value(TypeView::Null),
        TExpr::This { kind, .. }
        | TExpr::Local(_, _, kind)
        | TExpr::Static { kind, .. }
        | TExpr::Field { kind, .. }
        | TExpr::Element(_, _, kind)
        | TExpr::Conditional { kind, .. } => value(kind),
        TExpr::Cast(_, kind, _)
        | TExpr::New { kind, .. }
        | TExpr::NewArray(_, kind, _)
        | TExpr::NewFilled(_, kind, _) => value(&kind.kind),
        TExpr::Length(..) => ResultView::Value(TypeView::Number(Kind::Int)),
        TExpr::StaticCall { result, .. }
        | TExpr::VirtualCall { result, .. }
        | TExpr::ExactCall { result, .. } => result_viewed(result),
        TExpr::Constant(_, inner)
        | TExpr::Paren(_, inner)
        | TExpr::Through(_, inner)
        | TExpr::Step { target: inner, .. }
        | TExpr::Assign(inner, ..)
        | TExpr::Compound { target: inner, .. }
        | TExpr::Append(inner, ..) => type_of(inner.get()),
        TExpr::Unary(op, _, inner) => unary(*op, type_of(inner.get())),
        TExpr::Binary { left, op, .. } => binary(*op, type_of(left.get())),
        TExpr::Concat(..) => ResultView::Value(library(STRING)),
        TExpr::Same { .. } | TExpr::Instanceof(..) => boolean(),
        TExpr::Convert(c, _) => ResultView::Value(converted(*c)),
        TExpr::Lambda(lambda, _) | TExpr::LambdaBlock(lambda, _) => value(&lambda.face),
    }
}

/// The classes whose numbers stand here have these names in the library.
pub fn library_classes()
    ensures { AreNumbered }
{}

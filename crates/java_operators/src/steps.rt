// The conversions of an operand to the type that its operator works in, and of a result to a variable's type.
ghost use Rattle.std.specs.Prelude.{◌≡◌};
ghost use Rattle.java_operators.specs.Steps as s;
ghost use Rattle.java_typed.specs.Reading.{shown};

use java_conversions::{simple_in, simple_of, unboxed};
use java_type_relations::Simple;
use java_typed::{Conversion, TypeView};

/// Conversions that are made one after the other.
#[derive(Clone, Copy)]
pub struct Steps {
    pub first: Option<Conversion>,
    pub second: Option<Conversion>,
}

/// Out of a box (JLS 5.1.8).
fn unboxing(x: Simple) -> Conversion
    ensures { result ≡ s.unboxing x }
{
    match x {
        Simple::Number(kind) => Conversion::Unbox(kind),
        Simple::Boolean => Conversion::UnboxBoolean,
    }
}

/// Into a box (JLS 5.1.7).
fn boxing(x: Simple) -> Conversion
    ensures { result ≡ s.boxing x }
{
    match x {
        Simple::Number(kind) => Conversion::Box(kind),
        Simple::Boolean => Conversion::BoxBoolean,
    }
}

/// From a primitive type to another; none where they are the same.
fn between(from: Simple, to: Simple) -> Option<Conversion>
    ensures { result ≡ s.between from to }
{
    match (from, to) {
        (Simple::Number(from), Simple::Number(to)) => {
            if from == to {
                None
            } else {
                Some(Conversion::Number(from, to))
            }
        }
        _ => None,
    }
}

/// What a box holds, where a type is that of boxes.
fn box_in(x: TypeView<'_>) -> Option<Simple>
    ensures { result ≡ s.box_in (shown x.entry) }
{
    match simple_of(x) {
        Some(_) => None,
        None => unboxed(x),
    }
}

/// How an operand comes to the primitive type that its operator works in: out of its box, and then to that type.
pub fn operand_steps(x: TypeView<'_>, to: Simple) -> Steps
    ensures { result ≡ s.operand_steps (shown x.entry) to }
{
    let first = match box_in(x) {
        Some(held) => Some(unboxing(held)),
        None => None,
    };
    let second = match simple_in(x) {
        Some(from) => between(from, to),
        None => None,
    };
    Steps { first, second }
}

/// How what an operator gives is cast to a variable's type that is primitive or a box (JLS 15.14.2, 15.15.1, 15.26.2): to the
/// primitive type, and then into the box.
pub fn stored_steps(from: Simple, x: TypeView<'_>) -> Steps
    ensures { result ≡ s.stored_steps from (shown x.entry) }
{
    let first = match simple_in(x) {
        Some(to) => between(from, to),
        None => None,
    };
    let second = match box_in(x) {
        Some(held) => Some(boxing(held)),
        None => None,
    };
    Steps { first, second }
}

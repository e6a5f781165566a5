// The two arms of a conditional.
ghost use Rattle.std.specs.Prelude.{◌≡◌, IfOk};
ghost use Rattle.java_operators.specs.Choices as s;
ghost use Rattle.java_typed.specs.Reading.{shown};

use crate::kinds::is_reference;
use j2k_base::{Const, Kind, NoMemory};
use java_conversions::{box_of, fits, is_same_view, is_subtype, simple_in, simple_of};
use java_type_relations::{Heads, Simple};
use java_typed::TypeView;
use std::alloc::Global;

/// The type of a conditional.
#[derive(Clone, Copy)]
pub enum Choice {
    /// A primitive type.
    Simple(Simple),
    /// That of the first arm, or of its box.
    First,
    /// That of the second arm, or of its box.
    Second,
}

/// One of byte, the other of short.
fn is_byte_and_short(k: Kind, l: Kind) -> bool
    ensures { result ≡ s.is_byte_and_short k l }
{
    match (k, l) {
        (Kind::Byte, Kind::Short) | (Kind::Short, Kind::Byte) => true,
        _ => false,
    }
}

/// A constant of type int whose value is one of a smaller type.
fn fits_int(value: Option<Const>, kind: Kind) -> bool
    ensures { result ≡ s.fits_int value kind }
{
    match value {
        Some(Const::Int(value)) => fits(Const::Int(value), Simple::Number(kind)),
        _ => false,
    }
}

/// The primitive type of two numbers that aren't boxes of one class (JLS 15.25.2).
fn number_choice(k: Kind, v: Option<Const>, l: Kind, w: Option<Const>) -> Kind
    ensures { result ≡ s.number_choice k v l w }
{
    if k == l {
        return k;
    }
    if is_byte_and_short(k, l) {
        return Kind::Short;
    }
    if fits_int(w, k) {
        return k;
    }
    if fits_int(v, l) {
        return l;
    }
    match (k, l) {
        (Kind::Long, _) | (_, Kind::Long) => Kind::Long,
        _ => Kind::Int,
    }
}

/// Two primitive types, or what two boxes hold, not both boxes of one class: none where one is a number and the other a truth
/// value.
fn simple_choice(p: Simple, v: Option<Const>, q: Simple, w: Option<Const>) -> Option<Choice>
    ensures { result ≡ s.simple_choice p v q w }
{
    match (p, q) {
        (Simple::Boolean, Simple::Boolean) => Some(Choice::Simple(Simple::Boolean)),
        (Simple::Number(k), Simple::Number(l)) => {
            Some(Choice::Simple(Simple::Number(number_choice(k, v, l, w))))
        }
        _ => None,
    }
}

/// A type, or the class of its boxes where it is primitive.
fn boxed<'a>(x: TypeView<'a>) -> TypeView<'a>
    ensures { shown result ≡ s.boxed (shown x.entry) }
{
    match simple_of(x) {
        Some(simple) => TypeView::Class(box_of(simple), &[]),
        None => x,
    }
}

/// Two references: the one of which the other is a subtype; None where neither is.
fn reference_choice(
    alloc: Global,
    heads: &Heads,
    a: TypeView<'_>,
    b: TypeView<'_>,
) -> Result<Option<Choice>, NoMemory>
    ensures { IfOk result (λ r. r ≡ s.reference_choice heads.now (shown a.entry) (shown b.entry)) }
{
    if is_subtype(alloc, heads, b, a)? {
        return Ok(Some(Choice::First));
    }
    if is_subtype(alloc, heads, a, b)? {
        return Ok(Some(Choice::Second));
    }
    Ok(None)
}

/// Two arms by the primitive types that they are or hold, where that decides.
fn value_choice(
    a: TypeView<'_>,
    v: Option<Const>,
    b: TypeView<'_>,
    w: Option<Const>,
) -> Option<Choice>
    ensures { result ≡ s.value_choice (shown a.entry) v (shown b.entry) w }
{
    match (simple_in(a), simple_in(b)) {
        (Some(p), Some(q)) => simple_choice(p, v, q, w),
        _ => None,
    }
}

/// The type of a conditional by those of its two arms, and by their values where they are constant expressions (JLS 15.25);
/// None where they are references of which neither has a subtype of the other's type: then the place has to give the type.
pub fn choose(
    alloc: Global,
    heads: &Heads,
    a: TypeView<'_>,
    v: Option<Const>,
    b: TypeView<'_>,
    w: Option<Const>,
) -> Result<Option<Choice>, NoMemory>
    ensures { IfOk result (λ r. r ≡ s.chosen heads.now (shown a.entry) v (shown b.entry) w) }
{
    if is_reference(a) && is_same_view(a, b) {
        return Ok(Some(Choice::First));
    }
    match value_choice(a, v, b, w) {
        Some(choice) => Ok(Some(choice)),
        None => reference_choice(alloc, heads, boxed(a), boxed(b)),
    }
}

/// The type of a conditional as it was chosen.
pub fn choice_type<'a>(choice: Choice, a: TypeView<'a>, b: TypeView<'a>) -> TypeView<'a>
    ensures { shown result ≡ s.choice_type choice (shown a.entry) (shown b.entry) }
{
    match choice {
        Choice::Simple(Simple::Boolean) => TypeView::Boolean,
        Choice::Simple(Simple::Number(kind)) => TypeView::Number(kind),
        Choice::First => boxed(a),
        Choice::Second => boxed(b),
    }
}

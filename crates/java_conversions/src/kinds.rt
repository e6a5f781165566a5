// Primitive types, their boxes, and which conversions there are between them.
ghost use Rattle.std.specs.Prelude.{◌≡◌};
ghost use Rattle.java_type_relations.specs.Kinds as s;
ghost use Rattle.java_typed.specs.Reading.{shown};

use j2k_base::{Const, Kind};
use java_type_relations::Simple;
use java_typed::{ClassRef, TypeView};

/// A widening primitive conversion (JLS 5.1.2).
pub fn widens(from: Kind, to: Kind) -> bool
    ensures { result ≡ s.widens from to }
{
    match (from, to) {
        (Kind::Byte, Kind::Short | Kind::Int | Kind::Long)
        | (Kind::Short | Kind::Char, Kind::Int | Kind::Long)
        | (Kind::Int, Kind::Long) => true,
        _ => false,
    }
}

/// The same primitive type, or a wider one.
pub fn is_within(from: Simple, to: Simple) -> bool
    ensures { result ≡ s.is_within from to }
{
    match (from, to) {
        (Simple::Boolean, Simple::Boolean) => true,
        (Simple::Number(k), Simple::Number(l)) => k == l || widens(k, l),
        _ => false,
    }
}

/// A type as a primitive one, where it is that.
#[tactic(auto, unfolding(java_type_relations::specs::Kinds::simple_of))]
pub fn simple_of(x: TypeView<'_>) -> Option<Simple>
    ensures { result ≡ s.simple_of (shown x.entry) }
{
    match x {
        TypeView::Boolean => Some(Simple::Boolean),
        TypeView::Number(kind) => Some(Simple::Number(kind)),
        _ => None,
    }
}

/// The class of its boxes (JLS 5.1.7).
pub fn box_of(x: Simple) -> ClassRef
    ensures { result ≡ s.box_of x }
{
    match x {
        Simple::Number(Kind::Int) => ClassRef::Library(3),
        Simple::Number(Kind::Long) => ClassRef::Library(4),
        Simple::Number(Kind::Short) => ClassRef::Library(5),
        Simple::Number(Kind::Byte) => ClassRef::Library(6),
        Simple::Number(Kind::Char) => ClassRef::Library(7),
        Simple::Boolean => ClassRef::Library(8),
    }
}

/// What the boxes of a class hold; None where it isn't one of boxes.
fn unboxed_class(class: ClassRef) -> Option<Simple>
    ensures { result ≡ s.unboxed_class class }
{
    let ClassRef::Library(number) = class else {
        return None;
    };
    match number {
        3 => Some(Simple::Number(Kind::Int)),
        4 => Some(Simple::Number(Kind::Long)),
        5 => Some(Simple::Number(Kind::Short)),
        6 => Some(Simple::Number(Kind::Byte)),
        7 => Some(Simple::Number(Kind::Char)),
        8 => Some(Simple::Boolean),
        _ => None,
    }
}

/// What a type's values hold by unboxing (JLS 5.1.8); None where it is no type of boxes.
pub fn unboxed(x: TypeView<'_>) -> Option<Simple>
    ensures { result ≡ s.unboxed (shown x.entry) }
{
    match x {
        TypeView::Class(class, _) => unboxed_class(class),
        _ => None,
    }
}

/// The primitive type that a type is or is unboxed to.
pub fn simple_in(x: TypeView<'_>) -> Option<Simple>
    ensures { result ≡ s.simple_in (shown x.entry) }
{
    match simple_of(x) {
        Some(simple) => Some(simple),
        None => unboxed(x),
    }
}

fn promoted_kind(kind: Kind) -> Kind
    ensures { result ≡ s.promoted_kind kind }
{
    match kind {
        Kind::Long => Kind::Long,
        _ => Kind::Int,
    }
}

fn common_kind(a: Kind, b: Kind) -> Kind
    ensures { result ≡ s.common_kind a b }
{
    match (a, b) {
        (Kind::Long, _) | (_, Kind::Long) => Kind::Long,
        _ => Kind::Int,
    }
}

/// The type to which an operand is promoted (JLS 5.6.1), after unboxing; None where it has no numeric one.
pub fn promoted(x: TypeView<'_>) -> Option<Kind>
    ensures { result ≡ s.promoted (shown x.entry) }
{
    match simple_in(x) {
        Some(Simple::Number(kind)) => Some(promoted_kind(kind)),
        _ => None,
    }
}

/// The type to which two operands are promoted (JLS 5.6.2), each after unboxing.
pub fn promoted_both(x: TypeView<'_>, y: TypeView<'_>) -> Option<Kind>
    ensures { result ≡ s.promoted_both (shown x.entry) (shown y.entry) }
{
    match (simple_in(x), simple_in(y)) {
        (Some(Simple::Number(k)), Some(Simple::Number(l))) => Some(common_kind(k, l)),
        _ => None,
    }
}

fn is_in(kind: Kind, value: i32) -> bool
    ensures { result ≡ s.is_small kind value }
{
    match kind {
        Kind::Byte => -128 <= value && value <= 127,
        Kind::Short => -32768 <= value && value <= 32767,
        Kind::Char => 0 <= value && value <= 65535,
        Kind::Int | Kind::Long => false,
    }
}

/// Whether a constant of type byte, short, char or int is a value of byte, short or char (JLS 5.2).
pub fn fits(value: Const, to: Simple) -> bool
    ensures { result ≡ s.fits value to }
{
    let Simple::Number(kind) = to else {
        return false;
    };
    match value {
        Const::Byte(value) => is_in(kind, i32::from(value)),
        Const::Short(value) => is_in(kind, i32::from(value)),
        Const::Char(value) => is_in(kind, i32::from(value)),
        Const::Int(value) => is_in(kind, value),
        Const::Long(_) | Const::Bool(_) => false,
    }
}

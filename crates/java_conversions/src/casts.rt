// The conversions of casts.
ghost use Rattle.std.specs.Prelude.{◌≡◌, IfOk};
ghost use Rattle.java_type_relations.specs.Casts as s;
ghost use Rattle.java_typed.specs.Reading.{shown};

use crate::contexts::{class_type, is_boxed, is_unboxed};
use crate::heads::{bound_in, form_in};
use crate::kinds::{box_of, simple_of};
use crate::same::{is_same, is_same_view};
use crate::subtypes::{is_below, is_object, take_apart};
use crate::supers::supertype;
use j2k_base::NoMemory;
use java_type_relations::{ClassForm, Heads, Simple, Sought};
use java_typed::{ClassRef, TType, TypeView, viewed};
use std::alloc::Global;

/// A cast between primitive types: each number to each (JLS 5.1.2 to 5.1.4).
fn is_simple_cast(from: Simple, to: Simple) -> bool
    ensures { result ≡ s.is_simple_cast from to }
{
    match (from, to) {
        (Simple::Number(_), Simple::Number(_)) | (Simple::Boolean, Simple::Boolean) => true,
        _ => false,
    }
}

/// Two arguments of a type that are surely different (JLS 4.5): neither is a type parameter, and they aren't the same.
fn is_distinct(a: &TType, b: &TType) -> bool
    ensures { result ≡ s.is_distinct a.now b.now }
{
    match (a, b) {
        (TType::Variable(..), _) | (_, TType::Variable(..)) => false,
        _ => !is_same(a, viewed(b)),
    }
}

fn has_distinct(xs: &[TType], ys: &[TType]) -> bool
    ensures { result ≡ s.has_distinct xs.now ys.now }
{
    let mut xs_left = xs;
    let mut ys_left = ys;
    while let [x, xs_more @ ..] = xs_left {
        let [y, ys_more @ ..] = ys_left else {
            return false;
        };
        if is_distinct(x, y) {
            return true;
        }
        xs_left = xs_more;
        ys_left = ys_more;
    }
    false
}

/// Whether two types of one class have surely different arguments.
fn are_distinct(a: &TType, b: TypeView<'_>) -> bool
    ensures { result ≡ s.are_distinct a.now (shown b.entry) }
{
    match (a, b) {
        (TType::Class(_, xs), TypeView::Class(_, ys)) => has_distinct(xs.as_slice(), ys),
        _ => false,
    }
}

/// Whether a class that has subclasses may have one that is under the other class too (JLS 5.5.1).
fn may_meet(from: ClassForm, to: ClassForm) -> bool
    ensures { result ≡ s.may_meet from to }
{
    match (from, to) {
        (ClassForm::Interface, ClassForm::Interface | ClassForm::Class)
        | (ClassForm::Class, ClassForm::Interface) => true,
        _ => false,
    }
}

/// The bound of a type parameter, through those that are type parameters themselves; another type as it is.
fn upper<'a>(heads: &'a Heads, x: TypeView<'a>) -> TypeView<'a>
    ensures { shown result ≡ s.upper heads.now heads.now.steps (shown x.entry) }
{
    let mut found = x;
    let mut steps = heads.steps;
    while steps > 0 {
        let TypeView::Variable(class, place) = found else {
            return found;
        };
        let Some(bound) = bound_in(heads, class, place) else {
            return found;
        };
        found = viewed(bound);
        steps -= 1;
    }
    found
}

/// Whether a class is above a type, with arguments that may be those of b: None where it isn't above it.
fn along(
    alloc: Global,
    heads: &Heads,
    a: TypeView<'_>,
    class: ClassRef,
    b: TypeView<'_>,
) -> Result<Option<bool>, NoMemory>
    ensures { IfOk result (λ r. r ≡ s.along heads.now (shown a.entry) class (shown b.entry)) }
{
    match supertype(alloc, heads, Sought::Class(class), a)? {
        Some(found) => Ok(Some(!are_distinct(&found, b))),
        None => Ok(None),
    }
}

/// A cast between two class types (JLS 5.5.1): up, down, or to what a subclass may be as well.
fn is_class_cast(
    alloc: Global,
    heads: &Heads,
    a: TypeView<'_>,
    c: ClassRef,
    b: TypeView<'_>,
    d: ClassRef,
) -> Result<bool, NoMemory>
    ensures { IfOk result (λ r. r ≡ s.is_class_cast heads.now (shown a.entry) c (shown b.entry) d) }
{
    if let Some(meets) = along(alloc, heads, a, d, b)? {
        return Ok(meets);
    }
    if let Some(meets) = along(alloc, heads, b, c, a)? {
        return Ok(meets);
    }
    Ok(may_meet(form_in(heads, c), form_in(heads, d)))
}

/// A cast between references that aren't both arrays, nor type parameters.
fn is_met(alloc: Global, heads: &Heads, a: TypeView<'_>, b: TypeView<'_>) -> Result<bool, NoMemory>
    ensures { IfOk result (λ r. r ≡ s.is_met heads.now (shown a.entry) (shown b.entry)) }
{
    match (a, b) {
        (TypeView::Class(c, _), TypeView::Class(d, _)) => is_class_cast(alloc, heads, a, c, b, d),
        (TypeView::Class(c, _), TypeView::Array(_)) => Ok(is_object(c)),
        (TypeView::Array(_), TypeView::Class(d, _)) => Ok(is_object(d)),
        _ => Ok(false),
    }
}

/// A cast between references that aren't both arrays: to a supertype, or as the bounds of type parameters tell.
fn is_single_cast(
    alloc: Global,
    heads: &Heads,
    a: TypeView<'_>,
    b: TypeView<'_>,
) -> Result<bool, NoMemory>
    ensures { IfOk result (λ r. r ≡ s.is_single_cast heads.now (shown a.entry) (shown b.entry)) }
{
    if is_below(alloc, heads, a, b)? {
        return Ok(true);
    }
    is_met(alloc, heads, upper(heads, a), upper(heads, b))
}

/// A cast between references (JLS 5.5.1).
fn is_reference_cast(
    alloc: Global,
    heads: &Heads,
    a: TypeView<'_>,
    b: TypeView<'_>,
) -> Result<bool, NoMemory>
    ensures { IfOk result (λ r. r ≡ s.is_reference_cast heads.now (shown a.entry) (shown b.entry)) }
{
    let parts = take_apart(a, b);
    if simple_of(parts.a).is_some() || simple_of(parts.b).is_some() {
        Ok(is_same_view(parts.a, parts.b))
    } else {
        is_single_cast(alloc, heads, parts.a, parts.b)
    }
}

/// A cast of a reference to a primitive type: unboxing, or to the box first (JLS 5.5).
fn is_opened(
    alloc: Global,
    heads: &Heads,
    a: TypeView<'_>,
    to: Simple,
    b: TypeView<'_>,
) -> Result<bool, NoMemory>
    ensures { IfOk result (λ r. r ≡ s.is_opened heads.now (shown a.entry) to (shown b.entry)) }
{
    if is_unboxed(a, b) {
        return Ok(true);
    }
    if let TypeView::Null = a {
        return Ok(false);
    }
    let boxed = class_type(alloc, box_of(to));
    is_reference_cast(alloc, heads, a, viewed(&boxed))
}

/// Whether a cast from a type to another is taken (JLS 5.5). Of generic types it doesn't see that two types which aren't
/// above each other have supertypes with different arguments.
pub fn is_castable(
    alloc: Global,
    heads: &Heads,
    a: TypeView<'_>,
    b: TypeView<'_>,
) -> Result<bool, NoMemory>
    ensures { IfOk result (λ r. r ≡ s.is_castable heads.now (shown a.entry) (shown b.entry)) }
{
    match (simple_of(a), simple_of(b)) {
        (Some(from), Some(to)) => Ok(is_simple_cast(from, to)),
        (Some(_), None) => is_boxed(alloc, heads, a, b),
        (None, Some(to)) => is_opened(alloc, heads, a, to, b),
        (None, None) => is_reference_cast(alloc, heads, a, b),
    }
}

// The conversions of assignments and of arguments.
ghost use Rattle.std.specs.Prelude.{◌≡◌, IfOk};
ghost use Rattle.java_type_relations.specs.Contexts as s;
ghost use Rattle.java_typed.specs.Reading.{shown};

use crate::kinds::{box_of, fits, is_within, simple_in, simple_of, unboxed};
use crate::subtypes::is_subtype;
use j2k_base::{Const, NoMemory};
use java_type_relations::{Heads, Simple};
use java_typed::{ClassRef, TType, TypeView, viewed};
use sqlite_items::Items;
use std::alloc::Global;

/// A class type without arguments. It takes no memory.
pub fn class_type(alloc: Global, class: ClassRef) -> TType
    ensures { result ≡ s.class_type class }
{
    TType::Class(class, Items::new(alloc))
}

/// Boxing, and then a widening reference conversion.
pub fn is_boxed(
    alloc: Global,
    heads: &Heads,
    a: TypeView<'_>,
    b: TypeView<'_>,
) -> Result<bool, NoMemory>
    ensures { IfOk result (λ r. r ≡ s.is_boxed heads.now (shown a.entry) (shown b.entry)) }
{
    match simple_of(a) {
        Some(simple) => {
            let boxed = class_type(alloc, box_of(simple));
            is_subtype(alloc, heads, viewed(&boxed), b)
        }
        None => Ok(false),
    }
}

/// Unboxing, and then a widening primitive conversion.
pub fn is_unboxed(a: TypeView<'_>, b: TypeView<'_>) -> bool
    ensures { result ≡ s.is_unboxed (shown a.entry) (shown b.entry) }
{
    match (unboxed(a), simple_of(b)) {
        (Some(from), Some(to)) => is_within(from, to),
        _ => false,
    }
}

/// A loose conversion (JLS 5.3): an identity, a widening primitive or a widening reference conversion, boxing and then a
/// widening reference conversion, or unboxing and then a widening primitive conversion.
pub fn is_loose(
    alloc: Global,
    heads: &Heads,
    a: TypeView<'_>,
    b: TypeView<'_>,
) -> Result<bool, NoMemory>
    ensures { IfOk result (λ r. r ≡ s.is_loose heads.now (shown a.entry) (shown b.entry)) }
{
    if is_subtype(alloc, heads, a, b)? {
        return Ok(true);
    }
    if is_unboxed(a, b) {
        return Ok(true);
    }
    is_boxed(alloc, heads, a, b)
}

/// A constant of type byte, short, char or int, in a smaller type or in the box of one.
fn is_narrowed(value: Option<Const>, to: Option<Simple>) -> bool
    ensures { result ≡ s.is_narrowed value to }
{
    match (value, to) {
        (Some(value), Some(to)) => fits(value, to),
        _ => false,
    }
}

/// The conversions of an assignment (JLS 5.2): the loose ones, and those of a constant to byte, short or char, or to the box of
/// one, where its value is of that type. `value` is that of a constant expression.
pub fn is_assignable(
    alloc: Global,
    heads: &Heads,
    a: TypeView<'_>,
    value: Option<Const>,
    b: TypeView<'_>,
) -> Result<bool, NoMemory>
    ensures { IfOk result (λ r. r ≡ s.is_assignable heads.now (shown a.entry) value (shown b.entry)) }
{
    if is_narrowed(value, simple_in(b)) {
        return Ok(true);
    }
    is_loose(alloc, heads, a, b)
}

// Binary operators, compound assignments and `instanceof`.
ghost use Rattle.std.specs.Prelude.{◌≡◌, IfOk};
ghost use Rattle.java_operators.specs.Ways as s;
ghost use Rattle.java_typed.specs.Reading.{shown};

use crate::kinds::{
    arithmetic, bitwise, comparison, is_reference, logical, shift, simple_equality, sum,
};
use crate::ways::Way;
use j2k_base::{NoMemory, Op2};
use java_conversions::is_castable;
use java_type_relations::Heads;
use java_typed::{ClassRef, TypeView};
use std::alloc::Global;

/// Two references of which one could be cast to the type of the other (JLS 15.21.3).
fn are_comparable(
    alloc: Global,
    heads: &Heads,
    a: TypeView<'_>,
    b: TypeView<'_>,
) -> Result<bool, NoMemory>
    ensures { IfOk result (λ r. r ≡ s.are_comparable heads.now (shown a.entry) (shown b.entry)) }
{
    if is_castable(alloc, heads, a, b)? {
        return Ok(true);
    }
    is_castable(alloc, heads, b, a)
}

fn same_way(
    alloc: Global,
    heads: &Heads,
    a: TypeView<'_>,
    b: TypeView<'_>,
) -> Result<Option<Way>, NoMemory>
    ensures { IfOk result (λ r. r ≡ s.same_way heads.now (shown a.entry) (shown b.entry)) }
{
    if are_comparable(alloc, heads, a, b)? {
        Ok(Some(Way::Same))
    } else {
        Ok(None)
    }
}

/// `==` and `!=` (JLS 15.21).
fn equality(
    alloc: Global,
    heads: &Heads,
    a: TypeView<'_>,
    b: TypeView<'_>,
) -> Result<Option<Way>, NoMemory>
    ensures { IfOk result (λ r. r ≡ s.equality heads.now (shown a.entry) (shown b.entry)) }
{
    if is_reference(a) && is_reference(b) {
        same_way(alloc, heads, a, b)
    } else {
        Ok(simple_equality(a, b))
    }
}

/// How a binary operator works on operands of two types; None where it doesn't take them (JLS 15.17 to 15.24).
pub fn binary_way(
    alloc: Global,
    heads: &Heads,
    op: Op2,
    a: TypeView<'_>,
    b: TypeView<'_>,
) -> Result<Option<Way>, NoMemory>
    ensures { IfOk result (λ r. r ≡ s.binary heads.now op (shown a.entry) (shown b.entry)) }
{
    match op {
        Op2::Add => Ok(sum(a, b)),
        Op2::Sub | Op2::Mul | Op2::Div | Op2::Rem => Ok(arithmetic(a, b)),
        Op2::Shl | Op2::Shr | Op2::Ushr => Ok(shift(a, b)),
        Op2::And | Op2::Or | Op2::Xor => Ok(bitwise(a, b)),
        Op2::Lt | Op2::Le | Op2::Gt | Op2::Ge => Ok(comparison(a, b)),
        Op2::AndAlso | Op2::OrElse => Ok(logical(a, b)),
        Op2::Eq | Op2::Ne => equality(alloc, heads, a, b),
    }
}

/// The type of what an operator gives.
pub fn way_type<'a>(way: Way) -> TypeView<'a>
    ensures { shown result ≡ s.way_type way }
{
    match way {
        Way::Arithmetic(kind) | Way::Shift(kind, _) => TypeView::Number(kind),
        Way::Comparison(_) | Way::Logical | Way::Same => TypeView::Boolean,
        Way::Concat => TypeView::Class(ClassRef::Library(1), &[]),
    }
}

/// An operator that has a compound assignment (JLS 15.26.2).
fn is_compounding(op: Op2) -> bool
    ensures { result ≡ s.is_compounding op }
{
    match op {
        Op2::Lt | Op2::Le | Op2::Gt | Op2::Ge | Op2::Eq | Op2::Ne | Op2::AndAlso | Op2::OrElse => {
            false
        }
        _ => true,
    }
}

/// The way, where what it gives can be cast to a type.
fn cast_back(
    alloc: Global,
    heads: &Heads,
    way: Option<Way>,
    to: TypeView<'_>,
) -> Result<Option<Way>, NoMemory>
    ensures { IfOk result (λ r. r ≡ s.cast_back heads.now way (shown to.entry)) }
{
    let Some(way) = way else {
        return Ok(None);
    };
    if is_castable(alloc, heads, way_type(way), to)? {
        Ok(Some(way))
    } else {
        Ok(None)
    }
}

/// How the operator of a compound assignment works on a variable's type and a value's; None where it doesn't take them, or
/// where what it gives can't be cast to the variable's type (JLS 15.26.2). `stored_steps` is that cast to a primitive type or
/// a box.
pub fn compound_way(
    alloc: Global,
    heads: &Heads,
    op: Op2,
    a: TypeView<'_>,
    b: TypeView<'_>,
) -> Result<Option<Way>, NoMemory>
    ensures { IfOk result (λ r. r ≡ s.compound heads.now op (shown a.entry) (shown b.entry)) }
{
    if !is_compounding(op) {
        return Ok(None);
    }
    let way = binary_way(alloc, heads, op, a, b)?;
    cast_back(alloc, heads, way, a)
}

/// Whether `instanceof` takes a value of a type and another type (JLS 15.20.2): both are references, and the value could be cast.
pub fn is_instance_test(
    alloc: Global,
    heads: &Heads,
    a: TypeView<'_>,
    of: TypeView<'_>,
) -> Result<bool, NoMemory>
    ensures { IfOk result (λ r. r ≡ s.is_instance_test heads.now (shown a.entry) (shown of.entry)) }
{
    if is_reference(a) && is_reference(of) {
        is_castable(alloc, heads, a, of)
    } else {
        Ok(false)
    }
}

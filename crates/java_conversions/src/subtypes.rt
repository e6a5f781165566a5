// Subtyping.
ghost use Rattle.std.specs.Prelude.{◌≡◌, false, IfOk};
ghost use Rattle.java_type_relations.specs.Subtypes as s;
ghost use Rattle.java_conversions.specs.Apart.{parts};
ghost use Rattle.java_typed.specs.Reading.{shown};

use crate::kinds::{simple_of, widens};
use crate::same::{is_same, is_same_view};
use crate::supers::supertype;
use j2k_base::NoMemory;
use java_type_relations::{Heads, Sought};
use java_typed::{ClassRef, TType, TypeView, viewed};
use std::alloc::Global;

/// What two types are within the arrays that both of them are, and whether they are such arrays.
#[derive(Clone, Copy)]
pub struct Apart<'a> {
    pub deep: bool,
    pub a: TypeView<'a>,
    pub b: TypeView<'a>,
}

/// What two components are within the arrays that both of them are.
#[tactic(auto, unfolding(java_type_relations::specs::Subtypes::components))]
fn components<'a>(a: &'a TType, b: TypeView<'a>) -> Apart<'a>
    ensures { parts result ≡ s.components a.now (shown b.entry) }
{
    match (a, b) {
        (TType::Array(x), TypeView::Array(y)) => components(x.get(), viewed(y)),
        _ => Apart {
            deep: true,
            a: viewed(a),
            b,
        },
    }
}

/// Takes two types apart, as far as both are arrays.
pub fn take_apart<'a>(a: TypeView<'a>, b: TypeView<'a>) -> Apart<'a>
    ensures { parts result ≡ s.apart (shown a.entry) (shown b.entry) }
{
    match (a, b) {
        (TypeView::Array(x), TypeView::Array(y)) => components(x, viewed(y)),
        _ => Apart { deep: false, a, b },
    }
}

/// Object.
pub fn is_object(class: ClassRef) -> bool
    ensures { result ≡ s.is_object class }
{
    class == ClassRef::Library(0)
}

fn reaches(
    alloc: Global,
    heads: &Heads,
    sought: Sought,
    a: TypeView<'_>,
    b: TypeView<'_>,
) -> Result<bool, NoMemory>
    ensures { IfOk result (λ r. r ≡ s.reaches heads.now sought (shown a.entry) (shown b.entry)) }
{
    match supertype(alloc, heads, sought, a)? {
        Some(found) => Ok(is_same(&found, b)),
        None => Ok(false),
    }
}

/// Subtyping where not both are arrays.
pub fn is_below(
    alloc: Global,
    heads: &Heads,
    a: TypeView<'_>,
    b: TypeView<'_>,
) -> Result<bool, NoMemory>
    ensures { IfOk result (λ r. r ≡ s.is_below heads.now (shown a.entry) (shown b.entry)) }
{
    match (a, b) {
        (TypeView::Number(k), TypeView::Number(l)) => Ok(k == l || widens(k, l)),
        (TypeView::Boolean, TypeView::Boolean) => Ok(true),
        (
            TypeView::Null,
            TypeView::Null | TypeView::Class(..) | TypeView::Variable(..) | TypeView::Array(_),
        ) => Ok(true),
        (TypeView::Class(..) | TypeView::Variable(..), TypeView::Class(d, _)) => {
            reaches(alloc, heads, Sought::Class(d), a, b)
        }
        (TypeView::Variable(..), TypeView::Variable(d, n)) => {
            reaches(alloc, heads, Sought::Variable(d, n), a, b)
        }
        (TypeView::Array(_), TypeView::Class(d, _)) => Ok(is_object(d)),
        _ => Ok(false),
    }
}

/// Whether a type is a subtype of another or is the same (JLS 4.10): of primitive types, of class types and type
/// parameters with their supertypes, of arrays, and of `null` among all references. A value of the first stands where the
/// second is wanted by an identity or a widening conversion (JLS 5.1.1, 5.1.2, 5.1.5), as in the first phase of the
/// choice of a method (JLS 5.3, 15.12.2.2).
pub fn is_subtype(
    alloc: Global,
    heads: &Heads,
    a: TypeView<'_>,
    b: TypeView<'_>,
) -> Result<bool, NoMemory>
    ensures { IfOk result (λ r. r ≡ s.is_subtype heads.now (shown a.entry) (shown b.entry)) }
{
    let parts = take_apart(a, b);
    if parts.deep && simple_of(parts.a).is_some() {
        Ok(is_same_view(parts.a, parts.b))
    } else {
        is_below(alloc, heads, parts.a, parts.b)
    }
}

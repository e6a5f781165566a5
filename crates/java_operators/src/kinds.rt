// Operators on numbers and on truth values.
ghost use Rattle.std.specs.Prelude.{◌≡◌};
ghost use Rattle.java_operators.specs.Ways as s;
ghost use Rattle.java_typed.specs.Reading.{shown};

use crate::ways::Way;
use j2k_base::Kind;
use java_conversions::{is_same_view, promoted, promoted_both, simple_in, simple_of};
use java_type_relations::Simple;
use java_typed::{ClassRef, TypeView, UnaryOp};

/// A truth value, or the box of one.
pub fn is_truth(x: TypeView<'_>) -> bool
    ensures { result ≡ s.is_truth (shown x.entry) }
{
    match simple_in(x) {
        Some(Simple::Boolean) => true,
        _ => false,
    }
}

/// A type that isn't primitive.
pub fn is_reference(x: TypeView<'_>) -> bool
    ensures { result ≡ s.is_reference (shown x.entry) }
{
    match simple_of(x) {
        Some(_) => false,
        None => true,
    }
}

fn is_string(x: TypeView<'_>) -> bool
    ensures { result ≡ s.is_string (shown x.entry) }
{
    is_same_view(x, TypeView::Class(ClassRef::Library(1), &[]))
}

fn signed(kind: Option<Kind>) -> Option<Simple>
    ensures { result ≡ s.signed kind }
{
    match kind {
        Some(kind) => Some(Simple::Number(kind)),
        None => None,
    }
}

/// The type in which an operator before its operand works, which is that of the result (JLS 15.15.3 to 15.15.6).
pub fn unary_way(op: UnaryOp, x: TypeView<'_>) -> Option<Simple>
    ensures { result ≡ s.unary op (shown x.entry) }
{
    match op {
        UnaryOp::Plus | UnaryOp::Minus | UnaryOp::Complement => signed(promoted(x)),
        UnaryOp::Not => {
            if is_truth(x) {
                Some(Simple::Boolean)
            } else {
                None
            }
        }
    }
}

/// On numbers that are promoted together (JLS 5.6.2).
pub fn arithmetic(a: TypeView<'_>, b: TypeView<'_>) -> Option<Way>
    ensures { result ≡ s.arithmetic (shown a.entry) (shown b.entry) }
{
    match promoted_both(a, b) {
        Some(kind) => Some(Way::Arithmetic(kind)),
        None => None,
    }
}

/// On numbers that are promoted together (JLS 5.6.2), with a truth value.
pub fn comparison(a: TypeView<'_>, b: TypeView<'_>) -> Option<Way>
    ensures { result ≡ s.comparison (shown a.entry) (shown b.entry) }
{
    match promoted_both(a, b) {
        Some(kind) => Some(Way::Comparison(kind)),
        None => None,
    }
}

/// On numbers that are promoted each alone (JLS 15.19).
pub fn shift(a: TypeView<'_>, b: TypeView<'_>) -> Option<Way>
    ensures { result ≡ s.shift (shown a.entry) (shown b.entry) }
{
    match (promoted(a), promoted(b)) {
        (Some(of), Some(by)) => Some(Way::Shift(of, by)),
        _ => None,
    }
}

/// On two truth values.
pub fn logical(a: TypeView<'_>, b: TypeView<'_>) -> Option<Way>
    ensures { result ≡ s.logical (shown a.entry) (shown b.entry) }
{
    if is_truth(a) && is_truth(b) {
        Some(Way::Logical)
    } else {
        None
    }
}

/// `+` (JLS 15.18).
pub fn sum(a: TypeView<'_>, b: TypeView<'_>) -> Option<Way>
    ensures { result ≡ s.sum (shown a.entry) (shown b.entry) }
{
    if is_string(a) || is_string(b) {
        Some(Way::Concat)
    } else {
        arithmetic(a, b)
    }
}

/// On integers or on truth values (JLS 15.22).
pub fn bitwise(a: TypeView<'_>, b: TypeView<'_>) -> Option<Way>
    ensures { result ≡ s.bitwise (shown a.entry) (shown b.entry) }
{
    match arithmetic(a, b) {
        Some(way) => Some(way),
        None => logical(a, b),
    }
}

/// `==` and `!=` where not both are references (JLS 15.21.1, 15.21.2).
pub fn simple_equality(a: TypeView<'_>, b: TypeView<'_>) -> Option<Way>
    ensures { result ≡ s.simple_equality (shown a.entry) (shown b.entry) }
{
    match comparison(a, b) {
        Some(way) => Some(way),
        None => logical(a, b),
    }
}

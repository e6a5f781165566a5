// Conditionals.

ghost use Rattle.std.specs.Prelude.{◌≡◌, Some, if◌then◌else◌};
ghost use Rattle.const_fold.specs.Constants.{cut, is_in, beside_int, chosen_with, chosen_truth, chosen_number};
ghost use Rattle.const_fold.specs.Constants as spec;

use crate::casts::cut_to;
use j2k_base::{Const, Kind};

fn is_value(kind: Kind, x: i64) -> bool
    ensures { result ≡ is_in kind x }
{
    match kind {
        Kind::Byte => -128 <= x && x <= 127,
        Kind::Short => -32768 <= x && x <= 32767,
        Kind::Char => 0 <= x && x <= 65535,
        Kind::Int => -2147483648 <= x && x <= 2147483647,
        Kind::Long => -9223372036854775808 <= x && x <= 9223372036854775807,
    }
}

fn small_beside(small: Kind, x: i64) -> Kind
    ensures { result ≡ beside_int small x }
{
    if is_value(small, x) { small } else { Kind::Int }
}

fn chosen_kind(left: Kind, x: i64, right: Kind, y: i64) -> Kind
    ensures { result ≡ spec.chosen_kind left x right y }
{
    match left {
        Kind::Byte => match right {
            Kind::Byte => Kind::Byte,
            Kind::Short => Kind::Short,
            Kind::Char => Kind::Int,
            Kind::Int => small_beside(Kind::Byte, y),
            Kind::Long => Kind::Long,
        },
        Kind::Short => match right {
            Kind::Byte | Kind::Short => Kind::Short,
            Kind::Char => Kind::Int,
            Kind::Int => small_beside(Kind::Short, y),
            Kind::Long => Kind::Long,
        },
        Kind::Char => match right {
            Kind::Byte | Kind::Short => Kind::Int,
            Kind::Char => Kind::Char,
            Kind::Int => small_beside(Kind::Char, y),
            Kind::Long => Kind::Long,
        },
        Kind::Int => match right {
            Kind::Byte | Kind::Short | Kind::Char => small_beside(right, x),
            Kind::Int => Kind::Int,
            Kind::Long => Kind::Long,
        },
        Kind::Long => Kind::Long,
    }
}

fn choose(p: bool, left: Kind, x: i64, right: Kind, y: i64) -> Option<Const>
    ensures { result ≡ Some (cut (spec.chosen_kind left x right y) (if p then x else y)) }
{
    let kind = chosen_kind(left, x, right, y);
    Some(cut_to(kind, if p { x } else { y }))
}

fn choose_with(p: bool, left: Kind, x: i64, b: Const) -> Option<Const>
    ensures { result ≡ chosen_with p left x b }
{
    match b {
        Const::Byte(y) => choose(p, left, x, Kind::Byte, i64::from(y)),
        Const::Short(y) => choose(p, left, x, Kind::Short, i64::from(y)),
        Const::Char(y) => choose(p, left, x, Kind::Char, i64::from(y)),
        Const::Int(y) => choose(p, left, x, Kind::Int, i64::from(y)),
        Const::Long(y) => choose(p, left, x, Kind::Long, y),
        Const::Bool(_) => None,
    }
}

fn choose_truth(p: bool, q: bool, b: Const) -> Option<Const>
    ensures { result ≡ chosen_truth p q b }
{
    match b {
        Const::Bool(r) => Some(Const::Bool(if p { q } else { r })),
        _ => None,
    }
}

// The value of `p ? a : b`, where both have one.
pub(crate) fn chosen(p: bool, a: Const, b: Const) -> Option<Const>
    ensures { result ≡ chosen_number p a b }
{
    match a {
        Const::Byte(x) => choose_with(p, Kind::Byte, i64::from(x), b),
        Const::Short(x) => choose_with(p, Kind::Short, i64::from(x), b),
        Const::Char(x) => choose_with(p, Kind::Char, i64::from(x), b),
        Const::Int(x) => choose_with(p, Kind::Int, i64::from(x), b),
        Const::Long(x) => choose_with(p, Kind::Long, x, b),
        Const::Bool(q) => choose_truth(p, q, b),
    }
}

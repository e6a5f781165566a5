// Binary operators.

ghost use Rattle.std.specs.Prelude.{◌≡◌, pos, ◌*ℤ◌, ◌^◌, ◌/◌};
ghost use Rattle.std.specs.Int.{int_div_euclid};
ghost use Rattle.const_fold.specs.Constants.{cut, bits_of, distance, operated, decided, with_number, with_truth, value2};

use crate::bodies::body;
use j2k_base::{Const, Kind, Op2};

fn shl_int(x: i32, y: i64) -> Const
    ensures { result ≡ cut Kind.Int (x *ℤ pos (2 ^ distance Kind.Int y)) }
{
    body!(shl Int, x, y, 32)
}

fn shr_int(x: i32, y: i64) -> Const
    ensures { result ≡ cut Kind.Int (int_div_euclid x (pos (2 ^ distance Kind.Int y))) }
{
    body!(shr Int, x, y, 32)
}

fn ushr_int(x: i32, y: i64) -> Const
    ensures { result ≡ cut Kind.Int (pos (bits_of Kind.Int x / 2 ^ distance Kind.Int y)) }
{
    body!(ushr Int, x, y, 32)
}

fn shl_long(x: i64, y: i64) -> Const
    ensures { result ≡ cut Kind.Long (x *ℤ pos (2 ^ distance Kind.Long y)) }
{
    body!(shl Long, x, y, 64)
}

fn shr_long(x: i64, y: i64) -> Const
    ensures { result ≡ cut Kind.Long (int_div_euclid x (pos (2 ^ distance Kind.Long y))) }
{
    body!(shr Long, x, y, 64)
}

fn ushr_long(x: i64, y: i64) -> Const
    ensures { result ≡ cut Kind.Long (pos (bits_of Kind.Long x / 2 ^ distance Kind.Long y)) }
{
    body!(ushr Long, x, y, 64)
}

fn ints(op: Op2, x: i32, y: i32) -> Option<Const>
    ensures { result ≡ operated op Kind.Int Kind.Int x y }
{
    let wide = i64::from(y);
    body!(operate op, Int, x, y, shl_int(x, wide), shr_int(x, wide), ushr_int(x, wide))
}

fn longs(op: Op2, x: i64, y: i64) -> Option<Const>
    ensures { result ≡ operated op Kind.Long Kind.Long x y }
{
    body!(operate op, Long, x, y, shl_long(x, y), shr_long(x, y), ushr_long(x, y))
}

// A shift promotes each side alone.
fn int_and_long(op: Op2, x: i32, y: i64) -> Option<Const>
    ensures { result ≡ operated op Kind.Int Kind.Long x y }
{
    match op {
        Op2::Shl => Some(shl_int(x, y)),
        Op2::Shr => Some(shr_int(x, y)),
        Op2::Ushr => Some(ushr_int(x, y)),
        _ => longs(op, i64::from(x), y),
    }
}

fn with_int(op: Op2, x: i32, b: Const) -> Option<Const>
    ensures { result ≡ with_number op Kind.Int x b }
{
    body!(promoted b as y: ints(op, x, y), int_and_long(op, x, y), None)
}

fn with_long(op: Op2, x: i64, b: Const) -> Option<Const>
    ensures { result ≡ with_number op Kind.Long x b }
{
    body!(promoted b as y: longs(op, x, i64::from(y)), longs(op, x, y), None)
}

fn truths(op: Op2, p: bool, q: bool) -> Option<Const>
    ensures { result ≡ decided op p q }
{
    match op {
        Op2::And | Op2::AndAlso => Some(Const::Bool(p && q)),
        Op2::Or | Op2::OrElse => Some(Const::Bool(p || q)),
        Op2::Xor | Op2::Ne => Some(Const::Bool(p != q)),
        Op2::Eq => Some(Const::Bool(p == q)),
        _ => None,
    }
}

fn with_bool(op: Op2, p: bool, b: Const) -> Option<Const>
    ensures { result ≡ with_truth op p b }
{
    match b {
        Const::Bool(q) => truths(op, p, q),
        _ => None,
    }
}

/// The value of a binary operator on two constants (JLS 15.17 to 15.24). None where it has none: a divisor is 0, or the operator is not defined on the kinds. Takes no memory.
pub fn fold2(op: Op2, a: Const, b: Const) -> Option<Const>
    ensures { result ≡ value2 op a b }
{
    body!(promoted a as x: with_int(op, x, b), with_long(op, x, b), with_bool(op, x, b))
}

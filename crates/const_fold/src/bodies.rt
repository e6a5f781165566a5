// The bodies of the calls: one text for all machine kinds.

macro_rules! body {
    // A constant by its promoted kind, or a truth value.
    (promoted $a:ident as $x:ident: $int:expr, $long:expr, $truth:expr) => {
        match $a {
            Const::Byte(small) => {
                let $x = i32::from(small);
                $int
            }
            Const::Short(small) => {
                let $x = i32::from(small);
                $int
            }
            Const::Char(small) => {
                let $x = i32::from(small);
                $int
            }
            Const::Int($x) => $int,
            Const::Long($x) => $long,
            Const::Bool($x) => $truth,
        }
    };

    // Shifts by the low bits of the distance.
    (shl $kind:ident, $x:ident, $y:ident, $bits:literal) => {
        Const::$kind($x << ($y.rem_euclid($bits) as u32))
    };
    (shr $kind:ident, $x:ident, $y:ident, $bits:literal) => {
        Const::$kind($x >> ($y.rem_euclid($bits) as u32))
    };
    (ushr $kind:ident, $x:ident, $y:ident, $bits:literal) => {
        Const::$kind(($x.cast_unsigned() >> ($y.rem_euclid($bits) as u32)).cast_signed())
    };

    // The operators on two machine integers of one kind.
    (operate $op:ident, $kind:ident, $x:ident, $y:ident, $shl:expr, $shr:expr, $ushr:expr) => {
        match $op {
            Op2::Add => Some(Const::$kind($x.wrapping_add($y))),
            Op2::Sub => Some(Const::$kind($x.wrapping_sub($y))),
            Op2::Mul => Some(Const::$kind($x.wrapping_mul($y))),
            Op2::Div if $y == 0 => None,
            Op2::Div => Some(Const::$kind($x.wrapping_div($y))),
            Op2::Rem if $y == 0 => None,
            Op2::Rem => Some(Const::$kind($x.wrapping_rem($y))),
            Op2::Shl => Some($shl),
            Op2::Shr => Some($shr),
            Op2::Ushr => Some($ushr),
            Op2::And => Some(Const::$kind($x & $y)),
            Op2::Or => Some(Const::$kind($x | $y)),
            Op2::Xor => Some(Const::$kind($x ^ $y)),
            Op2::Lt => Some(Const::Bool($x < $y)),
            Op2::Le => Some(Const::Bool($x <= $y)),
            Op2::Gt => Some(Const::Bool($x > $y)),
            Op2::Ge => Some(Const::Bool($x >= $y)),
            Op2::Eq => Some(Const::Bool($x == $y)),
            Op2::Ne => Some(Const::Bool($x != $y)),
            Op2::AndAlso | Op2::OrElse => None,
        }
    };
}

pub(crate) use body;

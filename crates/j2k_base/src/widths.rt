// Integers cut to the widths of Java's types.
ghost use Rattle.std.specs.Prelude.{◌≡◌, ◌^◌, pos};
ghost use Rattle.std.specs.Int.{int_wrap, int_rem_euclid, w8, w16, w32, w64};

/// The number of the type that is `x` modulo 2 to its width.
pub fn wrap_i8(x: i128) -> i8
    ensures { result ≡ int_wrap w8 x }
{
    (x.rem_euclid(1 << 8) as u8).cast_signed()
}

/// As `wrap_i8`.
pub fn wrap_i16(x: i128) -> i16
    ensures { result ≡ int_wrap w16 x }
{
    (x.rem_euclid(1 << 16) as u16).cast_signed()
}

/// As `wrap_i8`.
pub fn wrap_i32(x: i128) -> i32
    ensures { result ≡ int_wrap w32 x }
{
    (x.rem_euclid(1 << 32) as u32).cast_signed()
}

/// As `wrap_i8`.
pub fn wrap_i64(x: i128) -> i64
    ensures { result ≡ int_wrap w64 x }
{
    (x.rem_euclid(1 << 64) as u64).cast_signed()
}

/// As `wrap_i8`.
pub fn wrap_u16(x: i128) -> u16
    ensures { pos result ≡ int_rem_euclid x (pos (2 ^ 16)) }
{
    x.rem_euclid(1 << 16) as u16
}

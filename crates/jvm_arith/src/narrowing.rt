//! The narrowing of ints.

ghost use Rattle.std.specs.Prelude.{◌≡◌, pos};
ghost use Rattle.std.specs.Int.{w8, w16, int_rem_euclid, int_wrap};
ghost use Rattle.jvm_arith.specs.Narrowing.{narrowed};

use class_model::Kind;

/// What is left of an int at a kind: of a boolean its low bit, of a byte, a char and a short its
/// low bits. Other kinds leave it as it is.
pub fn narrow(kind: Kind, a: i32) -> i32
    ensures { result ≡ narrowed kind a }
{
    match kind {
        Kind::Boolean => low_bit(a),
        Kind::Byte => low_byte(a),
        Kind::Char => low_char(a),
        Kind::Short => low_short(a),
        Kind::Int | Kind::Long | Kind::Ref(_) => a,
    }
}

// The lowest bit.
fn low_bit(a: i32) -> i32
    ensures { result ≡ int_rem_euclid a (pos 2) }
{
    (a.cast_unsigned() & 1) as i32
}

/// The low eight bits, with a sign (JVMS 6.5: i2b).
pub fn low_byte(a: i32) -> i32
    ensures { result ≡ int_wrap w8 a }
{
    ((a.cast_unsigned() & 0xff) as u8).cast_signed() as i32
}

/// The low sixteen bits (JVMS 6.5: i2c).
pub fn low_char(a: i32) -> i32
    ensures { result ≡ int_rem_euclid a (pos 65536) }
{
    (a.cast_unsigned() & 0xffff) as i32
}

/// The low sixteen bits, with a sign (JVMS 6.5: i2s).
pub fn low_short(a: i32) -> i32
    ensures { result ≡ int_wrap w16 a }
{
    ((a.cast_unsigned() & 0xffff) as u16).cast_signed() as i32
}

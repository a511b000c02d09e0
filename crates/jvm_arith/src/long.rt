//! Longs (JVMS 6.5).

ghost use Rattle.std.specs.Prelude.{◌≡◌, true, false, IfSome, IfNone};
ghost use Rattle.std.specs.Int.{w32, w64, int_wrap};
ghost use Rattle.machine_rules.specs.Arithmetic.{operate, divides_by_zero, shift_by, long_distance, negate, compare_longs};

use program_rules::{Operation, ShiftKind};

/// The operation on two longs, the first one `a`: none where it divides by 0 (JVMS 6.5: ladd, lsub,
/// lmul, ldiv, lrem, land, lor, lxor).
pub fn long_op(op: Operation, a: i64, b: i64) -> Option<i64>
    ensures none { IfNone result (divides_by_zero op b ≡ true) }
    ensures some { IfSome result (λ c. c ≡ operate w64 op a b) }
    ensures divided { IfSome result (λ c. divides_by_zero op b ≡ false) }
{
    match op {
        Operation::Plus => Some(a.wrapping_add(b)),
        Operation::Minus => Some(a.wrapping_sub(b)),
        Operation::Times => Some(a.wrapping_mul(b)),
        Operation::Divide if b == 0 => None,
        Operation::Divide => Some(a.wrapping_div(b)),
        Operation::Remainder if b == 0 => None,
        Operation::Remainder => Some(a.wrapping_rem(b)),
        Operation::BitAnd => Some(a & b),
        Operation::BitOr => Some(a | b),
        Operation::BitXor => Some(a ^ b),
    }
}

/// The long shifted by the low six bits of `by` (JVMS 6.5: lshl, lshr, lushr).
pub fn long_shift(op: ShiftKind, a: i64, by: i32) -> i64
    ensures { result ≡ shift_by w64 op a (long_distance by) }
{
    let distance = by.cast_unsigned();
    match op {
        ShiftKind::ShiftLeft => a.wrapping_shl(distance),
        ShiftKind::ShiftRight => a.wrapping_shr(distance),
        ShiftKind::ShiftUnsigned => a.cast_unsigned().wrapping_shr(distance).cast_signed(),
    }
}

/// The opposite long; of the least long that one itself (JVMS 6.5: lneg).
pub fn long_neg(a: i64) -> i64
    ensures { result ≡ negate w64 a }
{
    a.wrapping_neg()
}

/// 1, 0 or -1 where `a` is greater than `b`, the same or less (JVMS 6.5: lcmp).
pub fn long_compare(a: i64, b: i64) -> i32
    ensures { result ≡ compare_longs a b }
{
    if a < b {
        -1
    } else if b < a {
        1
    } else {
        0
    }
}

/// The low 32 bits of a long (JVMS 6.5: l2i).
pub fn long_to_int(a: i64) -> i32
    ensures { result ≡ int_wrap w32 a }
{
    ((a.cast_unsigned() & 0xffff_ffff) as u32).cast_signed()
}

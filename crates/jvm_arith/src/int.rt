//! Ints (JVMS 6.5).

ghost use Rattle.std.specs.Prelude.{◌≡◌, true, false, IfSome, IfNone};
ghost use Rattle.std.specs.Int.{w32};
ghost use Rattle.machine_rules.specs.Arithmetic.{operate, divides_by_zero, shift_by, int_distance, negate};

use program_rules::{Operation, ShiftKind};

/// The operation on two ints, the first one `a`: none where it divides by 0 (JVMS 6.5: iadd, isub,
/// imul, idiv, irem, iand, ior, ixor).
pub fn int_op(op: Operation, a: i32, b: i32) -> Option<i32>
    ensures none { IfNone result (divides_by_zero op b ≡ true) }
    ensures some { IfSome result (λ c. c ≡ operate w32 op a b) }
    ensures divided { IfSome result (λ c. divides_by_zero op b ≡ false) }
{
    match op {
        Operation::Plus => Some(a.wrapping_add(b)),
        Operation::Minus => Some(a.wrapping_sub(b)),
        Operation::Times => Some(a.wrapping_mul(b)),
        Operation::Divide if b == 0 => None,
        Operation::Divide => Some(a.wrapping_div(b)),
        Operation::Remainder if b == 0 => None,
        Operation::Remainder => Some(a.wrapping_rem(b)),
        Operation::BitAnd => Some(a & b),
        Operation::BitOr => Some(a | b),
        Operation::BitXor => Some(a ^ b),
    }
}

/// The int shifted by the low five bits of `by` (JVMS 6.5: ishl, ishr, iushr).
pub fn int_shift(op: ShiftKind, a: i32, by: i32) -> i32
    ensures { result ≡ shift_by w32 op a (int_distance by) }
{
    let distance = by.cast_unsigned();
    match op {
        ShiftKind::ShiftLeft => a.wrapping_shl(distance),
        ShiftKind::ShiftRight => a.wrapping_shr(distance),
        ShiftKind::ShiftUnsigned => a.cast_unsigned().wrapping_shr(distance).cast_signed(),
    }
}

/// The opposite int; of the least int that one itself (JVMS 6.5: ineg).
pub fn int_neg(a: i32) -> i32
    ensures { result ≡ negate w32 a }
{
    a.wrapping_neg()
}

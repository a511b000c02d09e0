//! The rows that push constants (JVMS 6.5).

ghost use Rattle.std.specs.Prelude.{◌≡◌, ◌+◌, ◌<◌, ◌≤◌, ◌^◌, length};
ghost use Rattle.program_rules.specs.declared.value.Value.{Value};
ghost use Rattle.machine_rules.specs.Effects.{pushes};
ghost use Rattle.jvm_state.specs.Slots.{IsStack};
ghost use Rattle.jvm_state.specs.Rows.{Lays};

use crate::slot::Slot;
use crate::words::{put_pair, put_word};

/// `aconst_null`.
#[inline(always)]
pub fn push_null(operands: &mut [Slot], at: usize, sp: usize, top: usize) -> Option<(usize, usize)>
    requires next { at + 1 < 2 ^ 64 }
    requires stack { IsStack operands.old sp }
    requires within { sp ≤ top }
    requires room { top ≤ length operands.old }
    ensures { Lays (λ w f fs. pushes w f fs top Value.Null f.stack) top at sp
        operands.old operands.new result }
{
    if sp >= top {
        return None;
    }
    put_word(operands, sp, Slot::Null);
    Some((at + 1, sp + 1))
}

/// `iconst`, `bipush`, `sipush`, and `ldc` of an int.
#[inline(always)]
pub fn push_int(
    z: i32,
    operands: &mut [Slot],
    at: usize,
    sp: usize,
    top: usize,
) -> Option<(usize, usize)>
    requires next { at + 1 < 2 ^ 64 }
    requires stack { IsStack operands.old sp }
    requires within { sp ≤ top }
    requires room { top ≤ length operands.old }
    ensures { Lays (λ w f fs. pushes w f fs top (Value.Int z) f.stack) top at sp
        operands.old operands.new result }
{
    if sp >= top {
        return None;
    }
    put_word(operands, sp, Slot::Int(z));
    Some((at + 1, sp + 1))
}

/// `lconst`, and `ldc2_w` of a long.
#[inline(always)]
pub fn push_long(
    z: i64,
    operands: &mut [Slot],
    at: usize,
    sp: usize,
    top: usize,
) -> Option<(usize, usize)>
    requires next { at + 1 < 2 ^ 64 }
    requires stack { IsStack operands.old sp }
    requires within { sp ≤ top }
    requires room { top ≤ length operands.old }
    ensures { Lays (λ w f fs. pushes w f fs top (Value.Long z) f.stack) top at sp
        operands.old operands.new result }
{
    if sp >= top || sp + 1 >= top {
        return None;
    }
    put_pair(operands, sp, Slot::Long(z), Slot::Unset);
    Some((at + 1, sp + 2))
}

/// A reference is pushed, for the rows that have found one.
#[inline(always)]
pub fn push_reference(
    x: u32,
    operands: &mut [Slot],
    at: usize,
    sp: usize,
    top: usize,
) -> Option<(usize, usize)>
    requires next { at + 1 < 2 ^ 64 }
    requires stack { IsStack operands.old sp }
    requires within { sp ≤ top }
    requires room { top ≤ length operands.old }
    ensures { Lays (λ w f fs. pushes w f fs top (Value.Ref x) f.stack) top at sp
        operands.old operands.new result }
{
    if sp >= top {
        return None;
    }
    put_word(operands, sp, Slot::Ref(x));
    Some((at + 1, sp + 1))
}

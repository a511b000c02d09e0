//! The rows of arithmetic (JVMS 6.5).

ghost use Rattle.std.specs.Prelude.{◌≡◌, ◌+◌, ◌<◌, ◌≤◌, ◌^◌, length};
ghost use Rattle.program_rules.specs.declared.operation.Conversion.TheVariants.{IntToLong, LongToInt};
ghost use Rattle.machine_rules.specs.Steps.{operates_int, operates_long, negates_int, negates_long, shifts_int, shifts_long, compares_longs, converts};
ghost use Rattle.jvm_state.specs.Slots.{IsStack};
ghost use Rattle.jvm_state.specs.Rows.{Lays, LaysElse};
ghost use Rattle.jvm_state.specs.Narrowings.{left_of, narrows};
ghost use Rattle.jvm_state.specs.Zero.{throws_by_int_zero, throws_by_long_zero};

use crate::slot::Slot;
use crate::words::{put_pair, put_word, top_int, top_ints, top_long, top_longs};
use jvm_arith::{
    int_neg, int_op, int_shift, long_compare, long_neg, long_op, long_shift, long_to_int, low_byte,
    low_char, low_short,
};
use program_rules::{Conversion, Operation, ShiftKind};

/// The operations on two ints. A quotient and a remainder by 0 are left to the row that throws.
#[inline(always)]
pub fn operate_int(
    op: Operation,
    operands: &mut [Slot],
    at: usize,
    sp: usize,
    top: usize,
) -> Option<(usize, usize)>
    requires next { at + 1 < 2 ^ 64 }
    requires stack { IsStack operands.old sp }
    requires within { sp ≤ top }
    requires room { top ≤ length operands.old }
    ensures { LaysElse (λ q w f fs. operates_int q w f fs op) (throws_by_int_zero op) top at sp
        operands.old operands.new result }
{
    let (x, y, below) = top_ints(operands, sp)?;
    let z = int_op(op, x, y)?;
    put_word(operands, below, Slot::Int(z));
    Some((at + 1, below + 1))
}

/// The operations on two longs. A quotient and a remainder by 0 are left to the row that throws.
#[inline(always)]
pub fn operate_long(
    op: Operation,
    operands: &mut [Slot],
    at: usize,
    sp: usize,
    top: usize,
) -> Option<(usize, usize)>
    requires next { at + 1 < 2 ^ 64 }
    requires stack { IsStack operands.old sp }
    requires within { sp ≤ top }
    requires room { top ≤ length operands.old }
    ensures { LaysElse (λ q w f fs. operates_long q w f fs op) (throws_by_long_zero op) top at sp
        operands.old operands.new result }
{
    let (x, y, below) = top_longs(operands, sp)?;
    let z = long_op(op, x, y)?;
    put_pair(operands, below, Slot::Long(z), Slot::Unset);
    Some((at + 1, below + 2))
}

/// `ineg`.
#[inline(always)]
pub fn negate_int(operands: &mut [Slot], at: usize, sp: usize, top: usize) -> Option<(usize, usize)>
    requires next { at + 1 < 2 ^ 64 }
    requires stack { IsStack operands.old sp }
    requires within { sp ≤ top }
    requires room { top ≤ length operands.old }
    ensures { Lays negates_int top at sp
        operands.old operands.new result }
{
    let (x, below) = top_int(operands, sp)?;
    let z = int_neg(x);
    put_word(operands, below, Slot::Int(z));
    Some((at + 1, below + 1))
}

/// `lneg`.
#[inline(always)]
pub fn negate_long(
    operands: &mut [Slot],
    at: usize,
    sp: usize,
    top: usize,
) -> Option<(usize, usize)>
    requires next { at + 1 < 2 ^ 64 }
    requires stack { IsStack operands.old sp }
    requires within { sp ≤ top }
    requires room { top ≤ length operands.old }
    ensures { Lays negates_long top at sp
        operands.old operands.new result }
{
    let (x, below) = top_long(operands, sp)?;
    let z = long_neg(x);
    put_pair(operands, below, Slot::Long(z), Slot::Unset);
    Some((at + 1, below + 2))
}

/// The shifts of an int.
#[inline(always)]
pub fn shift_int(
    s: ShiftKind,
    operands: &mut [Slot],
    at: usize,
    sp: usize,
    top: usize,
) -> Option<(usize, usize)>
    requires next { at + 1 < 2 ^ 64 }
    requires stack { IsStack operands.old sp }
    requires within { sp ≤ top }
    requires room { top ≤ length operands.old }
    ensures { Lays (λ w f fs. shifts_int w f fs s) top at sp
        operands.old operands.new result }
{
    let (x, by, below) = top_ints(operands, sp)?;
    let z = int_shift(s, x, by);
    put_word(operands, below, Slot::Int(z));
    Some((at + 1, below + 1))
}

/// The shifts of a long by an int.
#[inline(always)]
pub fn shift_long(
    s: ShiftKind,
    operands: &mut [Slot],
    at: usize,
    sp: usize,
    top: usize,
) -> Option<(usize, usize)>
    requires next { at + 1 < 2 ^ 64 }
    requires stack { IsStack operands.old sp }
    requires within { sp ≤ top }
    requires room { top ≤ length operands.old }
    ensures { Lays (λ w f fs. shifts_long w f fs s) top at sp
        operands.old operands.new result }
{
    let (by, rest) = top_int(operands, sp)?;
    let (x, below) = top_long(operands, rest)?;
    let z = long_shift(s, x, by);
    put_pair(operands, below, Slot::Long(z), Slot::Unset);
    Some((at + 1, below + 2))
}

/// `lcmp`.
#[inline(always)]
pub fn compare_longs(
    operands: &mut [Slot],
    at: usize,
    sp: usize,
    top: usize,
) -> Option<(usize, usize)>
    requires next { at + 1 < 2 ^ 64 }
    requires stack { IsStack operands.old sp }
    requires within { sp ≤ top }
    requires room { top ≤ length operands.old }
    ensures { Lays compares_longs top at sp
        operands.old operands.new result }
{
    let (x, y, below) = top_longs(operands, sp)?;
    let z = long_compare(x, y);
    put_word(operands, below, Slot::Int(z));
    Some((at + 1, below + 1))
}

// `i2l`.
#[inline(always)]
fn int_to_long(operands: &mut [Slot], at: usize, sp: usize, top: usize) -> Option<(usize, usize)>
    requires next { at + 1 < 2 ^ 64 }
    requires stack { IsStack operands.old sp }
    requires within { sp ≤ top }
    requires room { top ≤ length operands.old }
    ensures { Lays (λ w f fs. converts w f fs top IntToLong) top at sp
        operands.old operands.new result }
{
    let (z, below) = top_int(operands, sp)?;
    if below + 1 >= top {
        return None;
    }
    put_pair(operands, below, Slot::Long(z as i64), Slot::Unset);
    Some((at + 1, below + 2))
}

// `l2i`.
#[inline(always)]
fn narrow_long(operands: &mut [Slot], at: usize, sp: usize, top: usize) -> Option<(usize, usize)>
    requires next { at + 1 < 2 ^ 64 }
    requires stack { IsStack operands.old sp }
    requires within { sp ≤ top }
    requires room { top ≤ length operands.old }
    ensures { Lays (λ w f fs. converts w f fs top LongToInt) top at sp
        operands.old operands.new result }
{
    let (x, below) = top_long(operands, sp)?;
    let z = long_to_int(x);
    put_word(operands, below, Slot::Int(z));
    Some((at + 1, below + 1))
}

// The narrowings of an int: `i2b`, `i2c` and `i2s`.
#[derive(Clone, Copy)]
enum Narrowing {
    ToByte,
    ToChar,
    ToShort,
}

// What a narrowing leaves of an int.
#[inline(always)]
fn low_part(to: Narrowing, x: i32) -> i32
    ensures { result ≡ left_of to x }
{
    match to {
        Narrowing::ToByte => low_byte(x),
        Narrowing::ToChar => low_char(x),
        Narrowing::ToShort => low_short(x),
    }
}

// `i2b`, `i2c` and `i2s`.
#[inline(always)]
fn narrow_int(
    to: Narrowing,
    operands: &mut [Slot],
    at: usize,
    sp: usize,
    top: usize,
) -> Option<(usize, usize)>
    requires next { at + 1 < 2 ^ 64 }
    requires stack { IsStack operands.old sp }
    requires within { sp ≤ top }
    requires room { top ≤ length operands.old }
    ensures { Lays (λ w f fs. narrows w f fs top to) top at sp
        operands.old operands.new result }
{
    let (x, below) = top_int(operands, sp)?;
    let z = low_part(to, x);
    put_word(operands, below, Slot::Int(z));
    Some((at + 1, below + 1))
}

/// The conversions.
#[inline(always)]
pub fn convert(
    c: Conversion,
    operands: &mut [Slot],
    at: usize,
    sp: usize,
    top: usize,
) -> Option<(usize, usize)>
    requires next { at + 1 < 2 ^ 64 }
    requires stack { IsStack operands.old sp }
    requires within { sp ≤ top }
    requires room { top ≤ length operands.old }
    ensures { Lays (λ w f fs. converts w f fs top c) top at sp
        operands.old operands.new result }
{
    match c {
        Conversion::IntToLong => int_to_long(operands, at, sp, top),
        Conversion::LongToInt => narrow_long(operands, at, sp, top),
        Conversion::IntToByte => narrow_int(Narrowing::ToByte, operands, at, sp, top),
        Conversion::IntToChar => narrow_int(Narrowing::ToChar, operands, at, sp, top),
        Conversion::IntToShort => narrow_int(Narrowing::ToShort, operands, at, sp, top),
    }
}

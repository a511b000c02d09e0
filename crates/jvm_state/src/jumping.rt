//! The rows that only go on or jump (JVMS 6.5).

ghost use Rattle.std.specs.Prelude.{◌≡◌, ◌+◌, ◌<◌, ◌≤◌, ◌^◌, ℤ, ◌-ℤ◌, length, is_none};
ghost use Rattle.machine_rules.specs.Arithmetic.{compares};
ghost use Rattle.machine_rules.specs.Effects.{jumps};
ghost use Rattle.machine_rules.specs.Steps.{branches_on_int, branches_on_ints, branches_on_references, branches_on_null, same_reference, table_target, key_target, switches_table, switches_keys};
ghost use Rattle.jvm_state.specs.Slots.{IsStack};
ghost use Rattle.jvm_state.specs.Rows.{Lays};
ghost use Rattle.jvm_state.specs.Jumps.{test_of};

use crate::slot::Slot;
use crate::words::{top_int, top_ints, top_reference};
use program_rules::Comparison;

// Whether a comparison of two ints holds.
#[inline(always)]
fn compare(c: Comparison, x: i32, y: i32) -> bool
    ensures { result ≡ compares c x y }
{
    match c {
        Comparison::IsEqual => x == y,
        Comparison::IsUnequal => x != y,
        Comparison::IsLess => x < y,
        Comparison::IsAtLeast => x >= y,
        Comparison::IsGreater => x > y,
        Comparison::IsAtMost => x <= y,
    }
}

// Whether two references are the same object, or both null.
#[inline(always)]
fn are_same(x: Option<u32>, y: Option<u32>) -> bool
    ensures { result ≡ same_reference x y }
{
    match x {
        None => match y {
            None => true,
            Some(_) => false,
        },
        Some(x) => match y {
            None => false,
            Some(y) => x == y,
        },
    }
}

// Whether a fact is as it is to be.
#[inline(always)]
fn passes(wanted: bool, fact: bool) -> bool
    ensures { result ≡ test_of wanted fact }
{
    if wanted { fact } else { !fact }
}

/// `nop`.
#[inline(always)]
pub fn go_on(operands: &[Slot], at: usize, sp: usize, top: usize) -> Option<(usize, usize)>
    requires next { at + 1 < 2 ^ 64 }
    requires stack { IsStack operands.now sp }
    requires within { sp ≤ top }
    requires room { top ≤ length operands.now }
    ensures { Lays (λ w f fs. jumps w f fs (f.at + 1) f.stack) top at sp
        operands.now operands.now result }
{
    Some((at + 1, sp))
}

/// `goto`.
#[inline(always)]
pub fn go_to(to: u32, operands: &[Slot], at: usize, sp: usize, top: usize) -> Option<(usize, usize)>
    requires next { at + 1 < 2 ^ 64 }
    requires stack { IsStack operands.now sp }
    requires within { sp ≤ top }
    requires room { top ≤ length operands.now }
    ensures { Lays (λ w f fs. jumps w f fs to f.stack) top at sp
        operands.now operands.now result }
{
    Some((to as usize, sp))
}

/// The jumps on an int and 0.
#[inline(always)]
pub fn branch_on_int(
    c: Comparison,
    to: u32,
    operands: &[Slot],
    at: usize,
    sp: usize,
    top: usize,
) -> Option<(usize, usize)>
    requires next { at + 1 < 2 ^ 64 }
    requires stack { IsStack operands.now sp }
    requires within { sp ≤ top }
    requires room { top ≤ length operands.now }
    ensures { Lays (λ w f fs. branches_on_int w f fs c to) top at sp
        operands.now operands.now result }
{
    let (x, rest) = top_int(operands, sp)?;
    if compare(c, x, 0) {
        return Some((to as usize, rest));
    }
    Some((at + 1, rest))
}

/// The jumps on two ints.
#[inline(always)]
pub fn branch_on_ints(
    c: Comparison,
    to: u32,
    operands: &[Slot],
    at: usize,
    sp: usize,
    top: usize,
) -> Option<(usize, usize)>
    requires next { at + 1 < 2 ^ 64 }
    requires stack { IsStack operands.now sp }
    requires within { sp ≤ top }
    requires room { top ≤ length operands.now }
    ensures { Lays (λ w f fs. branches_on_ints w f fs c to) top at sp
        operands.now operands.now result }
{
    let (x, y, below) = top_ints(operands, sp)?;
    if compare(c, x, y) {
        return Some((to as usize, below));
    }
    Some((at + 1, below))
}

/// `if_acmpeq` where the two are to be the same, else `if_acmpne`.
#[inline(always)]
pub fn branch_on_references(
    same: bool,
    to: u32,
    operands: &[Slot],
    at: usize,
    sp: usize,
    top: usize,
) -> Option<(usize, usize)>
    requires next { at + 1 < 2 ^ 64 }
    requires stack { IsStack operands.now sp }
    requires within { sp ≤ top }
    requires room { top ≤ length operands.now }
    ensures { Lays (λ w f fs. branches_on_references w f fs (test_of same) to) top at sp
        operands.now operands.now result }
{
    let (y, rest) = top_reference(operands, sp)?;
    let (x, below) = top_reference(operands, rest)?;
    if passes(same, are_same(x, y)) {
        return Some((to as usize, below));
    }
    Some((at + 1, below))
}

/// `ifnull` where the reference is to be null, else `ifnonnull`.
#[inline(always)]
pub fn branch_on_null(
    null: bool,
    to: u32,
    operands: &[Slot],
    at: usize,
    sp: usize,
    top: usize,
) -> Option<(usize, usize)>
    requires next { at + 1 < 2 ^ 64 }
    requires stack { IsStack operands.now sp }
    requires within { sp ≤ top }
    requires room { top ≤ length operands.now }
    ensures { Lays (λ w f fs. branches_on_null w f fs (test_of null) to) top at sp
        operands.now operands.now result }
{
    let (x, rest) = top_reference(operands, sp)?;
    if passes(null, x.is_none()) {
        return Some((to as usize, rest));
    }
    Some((at + 1, rest))
}

// The target of a number in a table.
#[inline(always)]
fn table_target(default: u32, low: i32, targets: &[u32], z: i32) -> u32
    ensures { result ≡ table_target default targets.now (z -ℤ low) }
{
    let place = z as i64 - low as i64;
    target_at(default, targets, place)
}

/// The target of an index.
#[inline(always)]
pub fn target_at(default: u32, targets: &[u32], place: i64) -> u32
    ensures { result ≡ table_target default targets.now place }
{
    if place < 0 {
        return default;
    }
    match targets.get(place as usize) {
        Some(to) => *to,
        None => default,
    }
}

/// The target of a key.
pub fn key_target(default: u32, keys: &[(i32, u32)], z: i32) -> u32
    ensures { result ≡ key_target default keys.now z }
{
    for key in keys {
        if key.0 == z {
            return key.1;
        }
    }
    default
}

/// `tableswitch`.
#[inline(always)]
pub fn switch_by_table(
    default: u32,
    low: i32,
    targets: &[u32],
    operands: &[Slot],
    at: usize,
    sp: usize,
    top: usize,
) -> Option<(usize, usize)>
    requires next { at + 1 < 2 ^ 64 }
    requires stack { IsStack operands.now sp }
    requires within { sp ≤ top }
    requires room { top ≤ length operands.now }
    ensures { Lays (λ w f fs. switches_table w f fs default low targets.now) top at sp
        operands.now operands.now result }
{
    let (z, rest) = top_int(operands, sp)?;
    Some((table_target(default, low, targets, z) as usize, rest))
}

/// `lookupswitch`.
#[inline(always)]
pub fn switch_by_keys(
    default: u32,
    keys: &[(i32, u32)],
    operands: &[Slot],
    at: usize,
    sp: usize,
    top: usize,
) -> Option<(usize, usize)>
    requires next { at + 1 < 2 ^ 64 }
    requires stack { IsStack operands.now sp }
    requires within { sp ≤ top }
    requires room { top ≤ length operands.now }
    ensures { Lays (λ w f fs. switches_keys w f fs default keys.now) top at sp
        operands.now operands.now result }
{
    let (z, rest) = top_int(operands, sp)?;
    Some((key_target(default, keys, z) as usize, rest))
}

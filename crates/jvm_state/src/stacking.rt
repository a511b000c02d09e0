//! The rows that move the words of a stack (JVMS 2.6.2, 6.5).

ghost use Rattle.std.specs.Prelude.{◌≡◌, ◌+◌, ◌<◌, ◌≤◌, ◌^◌, length};
ghost use Rattle.machine_rules.specs.Steps.{pops_word, pops_two, doubles, doubles_under_one, doubles_under_two, doubles_two, doubles_two_under_one, doubles_two_under_two, swaps};
ghost use Rattle.jvm_state.specs.Slots.{IsStack};
ghost use Rattle.jvm_state.specs.Rows.{Lays};

use crate::slot::Slot;
use crate::words::{put_pair, put_word, top_pair, top_word};

/// `pop`: a value of one word.
#[inline(always)]
pub fn pop(operands: &[Slot], at: usize, sp: usize, top: usize) -> Option<(usize, usize)>
    requires next { at + 1 < 2 ^ 64 }
    requires stack { IsStack operands.now sp }
    requires within { sp ≤ top }
    requires room { top ≤ length operands.now }
    ensures { Lays pops_word top at sp
        operands.now operands.now result }
{
    let (_, rest) = top_word(operands, sp)?;
    Some((at + 1, rest))
}

/// `pop2`: a long, or two values of one word.
#[inline(always)]
pub fn pop_two(operands: &[Slot], at: usize, sp: usize, top: usize) -> Option<(usize, usize)>
    requires next { at + 1 < 2 ^ 64 }
    requires stack { IsStack operands.now sp }
    requires within { sp ≤ top }
    requires room { top ≤ length operands.now }
    ensures { Lays pops_two top at sp
        operands.now operands.now result }
{
    let (_, _, rest) = top_pair(operands, sp)?;
    Some((at + 1, rest))
}

/// `dup`.
#[inline(always)]
#[tactic(auto, using(crate::proofs::Pairs::pair_height))]
pub fn dup(operands: &mut [Slot], at: usize, sp: usize, top: usize) -> Option<(usize, usize)>
    requires next { at + 1 < 2 ^ 64 }
    requires stack { IsStack operands.old sp }
    requires within { sp ≤ top }
    requires room { top ≤ length operands.old }
    ensures { Lays (λ w f fs. doubles w f fs top) top at sp
        operands.old operands.new result }
{
    let (g, rest) = top_word(operands, sp)?;
    if sp >= top {
        return None;
    }
    put_word(operands, rest, g);
    put_word(operands, rest + 1, g);
    Some((at + 1, rest + 2))
}

/// `dup_x1`.
#[inline(always)]
#[tactic(auto, using(crate::proofs::Pairs::pair_height))]
pub fn dup_under_one(
    operands: &mut [Slot],
    at: usize,
    sp: usize,
    top: usize,
) -> Option<(usize, usize)>
    requires next { at + 1 < 2 ^ 64 }
    requires stack { IsStack operands.old sp }
    requires within { sp ≤ top }
    requires room { top ≤ length operands.old }
    ensures { Lays (λ w f fs. doubles_under_one w f fs top) top at sp
        operands.old operands.new result }
{
    let (g, rest) = top_word(operands, sp)?;
    let (h, below) = top_word(operands, rest)?;
    if sp >= top {
        return None;
    }
    put_word(operands, below, g);
    put_word(operands, below + 1, h);
    put_word(operands, below + 2, g);
    Some((at + 1, below + 3))
}

/// `dup_x2`.
#[inline(always)]
#[tactic(auto, using(crate::proofs::Pairs::pair_height))]
pub fn dup_under_two(
    operands: &mut [Slot],
    at: usize,
    sp: usize,
    top: usize,
) -> Option<(usize, usize)>
    requires next { at + 1 < 2 ^ 64 }
    requires stack { IsStack operands.old sp }
    requires within { sp ≤ top }
    requires room { top ≤ length operands.old }
    ensures { Lays (λ w f fs. doubles_under_two w f fs top) top at sp
        operands.old operands.new result }
{
    let (g, rest) = top_word(operands, sp)?;
    let (h, over, below) = top_pair(operands, rest)?;
    if sp >= top {
        return None;
    }
    put_word(operands, below, g);
    put_pair(operands, below + 1, h, over);
    put_word(operands, below + 3, g);
    Some((at + 1, below + 4))
}

/// `dup2`.
#[inline(always)]
#[tactic(auto, using(crate::proofs::Pairs::pair_height))]
pub fn dup_two(operands: &mut [Slot], at: usize, sp: usize, top: usize) -> Option<(usize, usize)>
    requires next { at + 1 < 2 ^ 64 }
    requires stack { IsStack operands.old sp }
    requires within { sp ≤ top }
    requires room { top ≤ length operands.old }
    ensures { Lays (λ w f fs. doubles_two w f fs top) top at sp
        operands.old operands.new result }
{
    let (g, above, rest) = top_pair(operands, sp)?;
    if sp >= top || sp + 1 >= top {
        return None;
    }
    put_pair(operands, rest, g, above);
    put_pair(operands, rest + 2, g, above);
    Some((at + 1, rest + 4))
}

/// `dup2_x1`.
#[inline(always)]
#[tactic(auto, using(crate::proofs::Pairs::pair_height))]
pub fn dup_two_under_one(
    operands: &mut [Slot],
    at: usize,
    sp: usize,
    top: usize,
) -> Option<(usize, usize)>
    requires next { at + 1 < 2 ^ 64 }
    requires stack { IsStack operands.old sp }
    requires within { sp ≤ top }
    requires room { top ≤ length operands.old }
    ensures { Lays (λ w f fs. doubles_two_under_one w f fs top) top at sp
        operands.old operands.new result }
{
    let (g, above, rest) = top_pair(operands, sp)?;
    let (h, below) = top_word(operands, rest)?;
    if sp >= top || sp + 1 >= top {
        return None;
    }
    put_pair(operands, below, g, above);
    put_word(operands, below + 2, h);
    put_pair(operands, below + 3, g, above);
    Some((at + 1, below + 5))
}

/// `dup2_x2`.
#[inline(always)]
#[tactic(auto, using(crate::proofs::Pairs::pair_height))]
pub fn dup_two_under_two(
    operands: &mut [Slot],
    at: usize,
    sp: usize,
    top: usize,
) -> Option<(usize, usize)>
    requires next { at + 1 < 2 ^ 64 }
    requires stack { IsStack operands.old sp }
    requires within { sp ≤ top }
    requires room { top ≤ length operands.old }
    ensures { Lays (λ w f fs. doubles_two_under_two w f fs top) top at sp
        operands.old operands.new result }
{
    let (g, above, rest) = top_pair(operands, sp)?;
    let (h, over, below) = top_pair(operands, rest)?;
    if sp >= top || sp + 1 >= top {
        return None;
    }
    put_pair(operands, below, g, above);
    put_pair(operands, below + 2, h, over);
    put_pair(operands, below + 4, g, above);
    Some((at + 1, below + 6))
}

/// `swap`.
#[inline(always)]
pub fn swap(operands: &mut [Slot], at: usize, sp: usize, top: usize) -> Option<(usize, usize)>
    requires next { at + 1 < 2 ^ 64 }
    requires stack { IsStack operands.old sp }
    requires within { sp ≤ top }
    requires room { top ≤ length operands.old }
    ensures { Lays (λ w f fs. swaps w f fs top) top at sp
        operands.old operands.new result }
{
    let (g, rest) = top_word(operands, sp)?;
    let (h, below) = top_word(operands, rest)?;
    put_word(operands, below, g);
    put_word(operands, below + 1, h);
    Some((at + 1, below + 2))
}

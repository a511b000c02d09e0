//! The counts of a `multianewarray` on the stack of the running frame (JVMS 6.5).

ghost use Rattle.std.specs.Prelude.{◌≡◌, ◌≤◌, length, map, unsigned_abs, IfOk, IfSome, MatchOption};
ghost use Rattle.std.specs.Int.{is_negative};
ghost use Rattle.std.specs.List.{list_any};
ghost use Rattle.jvm_frames.specs.Frames.{stack_of};
ghost use Rattle.jvm_array_rows.specs.Rows.{TakesCounts, NoCounts};

use class_model::Memory;
use jvm_frames::Frames;
use jvm_rows::int_at;
use std::alloc::Global;

/// So many counts on the stack, the outer one first, which is the lowest; none where there aren't
/// so many ints.
pub fn counts_on(alloc: Global, frames: &Frames, count: usize) -> Result<Option<Vec<i32>>, Memory>
    ensures counts { IfOk result (λ o. MatchOption o (NoCounts count (stack_of frames.now.frame))
        (λ zs. TakesCounts count (stack_of frames.now.frame) zs.items)) }
    ensures there { IfOk result (λ o.
        IfSome o (λ zs. count ≤ length (stack_of frames.now.frame))) }
    ensures len { IfOk result (λ o. IfSome o (λ zs. length zs.items ≡ count)) }
{
    let mut counts = Vec::with_capacity(alloc, count)?;
    while counts.len() < count {
        let Some(z) = int_at(frames, counts.len()) else {
            return Ok(None);
        };
        counts.push(z)?;
    }
    counts.reverse();
    Ok(Some(counts))
}

/// Whether a count is below 0.
pub fn has_negative(counts: &[i32]) -> bool
    ensures { result ≡ list_any is_negative counts.now }
{
    for z in counts {
        if *z < 0 {
            return true;
        }
    }
    false
}

/// Counts none of which is below 0.
pub fn sizes_of(alloc: Global, counts: &[i32]) -> Result<Vec<u32>, Memory>
    ensures { IfOk result (λ sizes. sizes.items ≡ map unsigned_abs counts.now) }
{
    let mut sizes = Vec::with_capacity(alloc, counts.len())?;
    for z in counts {
        sizes.push(z.unsigned_abs())?;
    }
    Ok(sizes)
}

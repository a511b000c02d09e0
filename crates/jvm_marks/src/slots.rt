//! Places of a list by number.

ghost use Rattle.std.specs.Prelude.{◌≡◌, ℕ, ◌<◌, OnOk, length};
ghost use Rattle.std.proofs.Common.{get_or};

use class_model::Memory;

/// Makes sure that a list has a place. The places that are added hold the first value, as all those
/// past the end count to do.
pub fn make_place<T: Copy + Drop>(slots: &mut Vec<T>, at: usize, first: T) -> Result<(), Memory>
    ensures same { (i : ℕ) → get_or slots.new.items i first ≡ get_or slots.old.items i first }
    ensures place { OnOk result (at < length slots.new.items) }
{
    while slots.len() <= at {
        slots.push(first)?;
    }
    Ok(())
}

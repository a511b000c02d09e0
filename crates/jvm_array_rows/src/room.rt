//! The words that arrays of arrays take, and whether a world has room for them (JVMS 6.5,
//! `multianewarray`).

ghost use Rattle.std.specs.Prelude.{◌≡◌, ◌+◌, ◌*◌, ◌≤◌, ◌<◌, ℕ, length, nat_le, if◌then◌else◌, Some, None, IfSome, IfNone};
ghost use Rattle.program_rules.specs.Names.{Name};
ghost use Rattle.jvm_world.specs.View.{IsWorldOf, TellsMade};
ghost use Rattle.jvm_array_rows.specs.Built.{words_for, WordsWithin, making};

use class_table::Program;
use jvm_world::World;

// A number that is within a limit.
fn within(words: u64, limit: u32) -> Option<u32>
    ensures { result ≡ (if nat_le words limit then Some words else None) }
{
    if words <= limit as u64 {
        Some(words as u32)
    } else {
        None
    }
}

// The words of an outer array and of so many components, within a limit.
fn words_with(count: u32, each: u32, limit: u32) -> Option<u32>
    ensures some { IfSome result (λ w. (w ≡ (2 + count) + count * each) × (w ≤ limit)) }
    ensures none { IfNone result (limit < (2 + count) + count * each) }
{
    let outer = count as u64 + 2;
    let components = (count as u64).checked_mul(each as u64)?;
    let words = components.checked_add(outer)?;
    within(words, limit)
}

// The words of an outer array and of so many components, by those of a component.
#[tactic(auto, using(crate::proofs::Sums::words_past))]
fn words_around(count: u32, each: Option<u32>, limit: u32) -> Option<u32>
    ensures { (words : ℕ) → WordsWithin each words limit →
        WordsWithin result ((2 + count) + count * words) limit }
{
    match each {
        Some(each) => words_with(count, each, limit),
        None => {
            if count == 0 {
                return within(2, limit);
            }
            None
        }
    }
}

// The words that arrays of arrays take, where they are within a limit.
fn words_for(counts: &[u32], limit: u32) -> Option<u32>
    ensures { WordsWithin result (words_for counts.now) limit }
{
    let mut words = Some(0);
    let mut left = counts.len();
    while left > 0 {
        left -= 1;
        words = words_around(counts[left], words, limit);
    }
    words
}

// Whether so many words more are within the limit of a heap.
fn fits(used: u32, words: u32, limit: u32) -> bool
    ensures { result ≡ nat_le (used + words) limit }
{
    used <= limit && words <= limit - used
}

/// Whether the words of arrays of arrays more are within the limit of a heap.
pub fn has_room(used: u32, counts: &[u32], limit: u32) -> bool
    ensures { result ≡ nat_le (used + words_for counts.now) limit }
{
    match words_for(counts, limit) {
        Some(words) => fits(used, words, limit),
        None => false,
    }
}

/// Whether the heap of a world has room for arrays of arrays.
pub fn has_room_in(world: &World, p: &Program, counts: &[u32]) -> bool
    requires world { IsWorldOf p.now world.now }
    requires there { 1 ≤ length counts.now }
    ensures { (name : Name) →
        TellsMade p.now world.now (making name counts.now world.now.limits) result }
{
    let _ = p.len();
    has_room(world.heap.words(), counts, world.limits.heap)
}

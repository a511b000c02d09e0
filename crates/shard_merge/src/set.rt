//! Whether the heads of shard files are those of all shards.

ghost use Rattle.std.specs.Prelude.{◌≡◌, ◌≤◌, find, length, not};
ghost use Rattle.std.specs.List.{range_with_len};
ghost use Rattle.shard_rules.specs.Sets.{count_fault, doubled_fault, has_index, missing_fault};
ghost use Rattle.shard_rules.specs.Sets.{set_of, shard_count};

use class_model::Seq;
use shard_rules::{Head, SetFault};

// The number of shards that the first head tells.
fn shard_count(heads: &[Head]) -> u16
    ensures { result ≡ shard_count heads.now }
{
    match heads {
        [first, ..] => first.of,
        [] => 0,
    }
}

// One of these heads has the index.
fn has_index(heads: &[Head], index: u16) -> bool
    ensures { result ≡ has_index heads.now index }
{
    for head in heads {
        if head.index == index {
            return true;
        }
    }
    false
}

// The first head of another number of shards than that of the first.
fn count_fault(heads: &[Head]) -> Option<SetFault>
    requires { length heads.now ≤ 64 }
    ensures { result ≡ count_fault heads.now }
{
    let first = shard_count(heads);
    for (place, head) in heads.iter().enumerate() {
        if head.of != first {
            return Some(SetFault::Count {
                place: place as u32,
                of: head.of,
                first,
            });
        }
    }
    None
}

// The first head with the index of an earlier one.
fn doubled_fault(heads: &[Head]) -> Option<SetFault>
    requires { length heads.now ≤ 64 }
    ensures { result ≡ doubled_fault heads.now }
{
    for (place, head) in heads.iter().enumerate() {
        let (before, _behind) = heads.split_at(place);
        if has_index(before, head.index) {
            return Some(SetFault::Doubled {
                index: head.index,
                place: place as u32,
            });
        }
    }
    None
}

// The least index up to a number that no head has.
fn missing_index(heads: &[Head], count: u16) -> Option<u16>
    ensures { result ≡ find (λ i. not (has_index heads.now i)) (range_with_len 1 count) }
{
    for before in 0..count {
        let index = before + 1;
        if !has_index(heads, index) {
            return Some(index);
        }
    }
    None
}

fn missing_fault(heads: &[Head]) -> Option<SetFault>
    ensures { result ≡ missing_fault heads.now }
{
    match missing_index(heads, shard_count(heads)) {
        Some(index) => Some(SetFault::Missing { index }),
        None => None,
    }
}

/// Refuses heads that aren't those of all shards, each once: by the first of another number of
/// shards than that of the first; else by the first with the index of an earlier one; else by the
/// least index that is missing. With different indices no more are asked for than there are heads,
/// and one.
pub fn check_set(heads: &Seq<Head>) -> Result<(), SetFault>
    requires { length heads.now ≤ 64 }
    ensures { result ≡ set_of heads.now }
{
    let heads = heads.as_slice();
    if let Some(fault) = count_fault(heads) {
        return Err(fault);
    }
    if let Some(fault) = doubled_fault(heads) {
        return Err(fault);
    }
    match missing_fault(heads) {
        Some(fault) => Err(fault),
        None => Ok(()),
    }
}

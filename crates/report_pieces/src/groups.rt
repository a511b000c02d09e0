//! The files of a report: which places of a list have the same key.

ghost use Rattle.std.specs.Prelude.{◌≡◌, ℕ, ◌-◌, ◌<◌, ◌≤◌, List, [], ◌++◌, ◌||◌, if◌then◌else◌, length, map, slice_index, IfOk, OnOk, string_bytes};
ghost use Rattle.std.specs.BTreeMap.{IsOrdered};
ghost use Rattle.std.specs.Str.{bytes_eq};
ghost use Rattle.std.specs.String.{string_cmp};
ghost use Rattle.report_pieces.specs.Groups.{groups_of, key_at, keys_at, count_from, IsRun, kept_at, has_key, as_groups};

use crate::input::Group;
use class_model::{Bytes, Memory, Seq};
use std::alloc::Global;
use std::collections::BTreeMap;

// The numbers from one up to another.
fn count_up(alloc: Global, from: usize, end: usize) -> Result<Vec<usize>, Memory>
    ensures { IfOk result (λ places. places.items ≡ count_from from (end - from)) }
{
    let mut places = Vec::new(alloc);
    for place in from..end {
        places.push(place)?;
    }
    Ok(places)
}

// The key of a number, empty where there is none.
#[tactic(auto, using(crate::proofs::Grouping::key_is))]
fn key_of(keys: &[String], number: u32) -> &str
    ensures { result.now ≡ key_at (map string_bytes keys.now) number }
{
    match keys.get(number as usize) {
        Some(key) => key.as_str(),
        None => "",
    }
}

// Adds places behind those of a key.
fn push_places(
    groups: &mut BTreeMap<String, Vec<usize>>,
    key: String,
    places: &[usize],
) -> Result<(), Memory>
    ensures lists { OnOk result (
        (q : List ℕ) →
        kept_at q groups.new ≡ kept_at q groups.old ++
        (if bytes_eq q (string_bytes key) then places.now else [])) }
    ensures ordered { OnOk result (IsOrdered string_cmp groups.new) }
    ensures keys { OnOk result (
        (q : List ℕ) →
        has_key q groups.new ≡ (has_key q groups.old || bytes_eq q (string_bytes key))) }
{
    groups.entry(key)?.or_default().extend_from_slice(places)?;
    Ok(())
}

// A place up to which all numbers are the one at a place before it.
fn run_end(numbers: &[u32], at: usize) -> usize
    requires { at < length numbers.now }
    ensures { IsRun numbers.now at result }
{
    let mut end = at + 1;
    while end < numbers.len() && numbers[end] == numbers[at] {
        end += 1;
    }
    end
}

// The places of each key.
fn places_by_key(
    alloc: Global,
    keys: &[String],
    numbers: &[u32],
) -> Result<BTreeMap<String, Vec<usize>>, Memory>
    ensures { IfOk result (λ groups.
        as_groups groups.entries ≡ groups_of (keys_at (map string_bytes keys.now) numbers.now)) }
{
    let mut groups = BTreeMap::new(alloc);
    let mut at = 0;
    while at < numbers.len() {
        let end = run_end(numbers, at);
        let key = String::from_str(alloc, key_of(keys, numbers[at]))?;
        let places = count_up(alloc, at, end)?;
        push_places(&mut groups, key, places.as_slice())?;
        at = end;
    }
    Ok(groups)
}

/// The places of a list by their keys, in byte order of the keys. At each place the list has the
/// number of its key. A key is looked up once for places in a row that have one number.
pub fn grouped(alloc: Global, keys: &[String], numbers: &[u32]) -> Result<Seq<Group>, Memory>
    ensures { IfOk result (λ groups.
        groups ≡ groups_of (keys_at (map string_bytes keys.now) numbers.now)) }
{
    let mut groups = Seq::new(alloc);
    for (key, places) in places_by_key(alloc, keys, numbers)? {
        let group = Group {
            key: Bytes::from_vec(key.into_bytes()),
            numbers: Seq::from_vec(places),
        };
        groups.push(group)?;
    }
    Ok(groups)
}

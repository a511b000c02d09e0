//! Which rows come first among equal ones.

ghost use Rattle.std.specs.Prelude.{◌≡◌, ◌&&◌, ◌∷◌, ◌++◌, [], length, map, filter, if◌then◌else◌, IfOk, OnOk};
ghost use Rattle.new_history.specs.Keys.{are_first, is_yes, key_of, picked};
ghost use Rattle.new_history.specs.Needed.{is_old};

use crate::keys::{Keys, key_of};
use crate::needed::Needed;
use class_model::{Memory, Seq};
use history_file::Row;
use std::alloc::Global;

fn keys_of(alloc: Global, rows: &[Row]) -> Result<Vec<Vec<u64>>, Memory>
    ensures { IfOk result (λ keys. map (λ k. k.items) keys.items ≡ map key_of rows.now) }
{
    let mut keys = Vec::with_capacity(alloc, rows.len())?;
    for row in rows {
        let key = key_of(alloc, row)?;
        keys.push(key)?;
    }
    Ok(keys)
}

fn are_first(alloc: Global, keys: &[Vec<u64>]) -> Result<Vec<bool>, Memory>
    ensures { IfOk result (λ firsts. firsts.items ≡ are_first (map (λ k. k.items) keys.now)) }
{
    let mut seen = Keys::new(alloc);
    let mut firsts = Vec::with_capacity(alloc, keys.len())?;
    for key in keys {
        let first = seen.insert(key.as_slice())?;
        firsts.push(first)?;
    }
    Ok(firsts)
}

/// Of each row whether it is none of those before it. It takes time by the numbers in the rows times
/// the logarithm of how many rows there are.
pub fn firsts_of(alloc: Global, rows: &[Row]) -> Result<Vec<bool>, Memory>
    ensures { IfOk result (λ firsts. firsts.items ≡ are_first (map key_of rows.now)) }
{
    let keys = keys_of(alloc, rows)?;
    let firsts = are_first(alloc, keys.as_slice())?;
    Ok(firsts)
}

// Adds a row, if it comes first.
fn keep_if(first: bool, row: Row, some: &mut Seq<Row>) -> Result<(), Memory>
    ensures { OnOk result (some.new ≡ some.old ++ (if first then row ∷ [] else [])) }
{
    if first {
        some.push(row)?;
    }
    Ok(())
}

/// The rows of which this says yes.
pub fn pick(alloc: Global, firsts: &[bool], rows: Seq<Row>) -> Result<Seq<Row>, Memory>
    ensures { IfOk result (λ some. some ≡ picked firsts.now rows) }
{
    let mut some = Seq::new(alloc);
    let mut at = 0;
    for row in rows.into_vec() {
        let first = is_yes(firsts, at);
        keep_if(first, row, &mut some)?;
        at += 1;
    }
    Ok(some)
}

fn is_yes(firsts: &[bool], i: usize) -> bool
    ensures { result ≡ is_yes firsts.now i }
{
    match firsts.get(i) {
        Some(first) => *first,
        None => false,
    }
}

fn is_old(needed: Needed) -> bool
    ensures { result ≡ is_old needed.entry }
{
    match needed {
        Needed::Old { row: _, limit: _ } => true,
        Needed::Made(_) => false,
    }
}

// Whether the one at a place comes first and is an old one.
fn is_first_old(needed: Needed, firsts: &[bool], at: usize) -> bool
    ensures { result ≡ (is_yes firsts.now at && is_old needed.entry) }
{
    is_yes(firsts, at) && is_old(needed)
}

/// How many of those that come first are old ones.
pub fn count_old(needed: &[Needed], firsts: &[bool]) -> u64
    ensures { result ≡ length (filter is_old (picked firsts.now needed.now)) }
{
    let mut count = 0;
    for (at, one) in needed.iter().enumerate() {
        if is_first_old(*one, firsts, at) {
            count += 1;
        }
    }
    count
}

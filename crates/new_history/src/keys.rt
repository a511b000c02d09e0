//! Whether rows differ, by their numbers one after the other.

ghost use Rattle.std.specs.Prelude.{◌≡◌, ◌++◌, ℕ, List, [], ◌∷◌, map, not, IfOk, OnOk};
ghost use Rattle.std.specs.List.{flat_map};
ghost use Rattle.program_rules.specs.Names.{is_listed};
ghost use Rattle.new_history.specs.Keys.{HasKeys, end_tag, end_name, entry_key, front_of, pair_key, key_of};

use class_model::Memory;
use history_file::{End, Entry, Row};
use std::alloc::Global;
use std::collections::BTreeMap;

/// Keys of rows, each once. A question costs the logarithm of how many there are times the length
/// of the key that is asked about, whatever the others are.
#[derive(Drop)]
pub struct Keys<'k> {
    seen: BTreeMap<&'k [u64], ()>,
}

impl<'k> Keys<'k> {
    /// None is there yet.
    pub fn new(alloc: Global) -> Keys<'k>
        ensures { HasKeys result [] }
    {
        Keys {
            seen: BTreeMap::new(alloc),
        }
    }

    /// Adds a key, and tells whether it is new.
    pub fn insert(&mut self, key: &'k [u64]) -> Result<bool, Memory>
        ensures { IfOk result (λ fresh. (xs : List (List ℕ)) → HasKeys self.old xs
            → (fresh ≡ not (is_listed key.now xs)) × HasKeys self.new (key.now ∷ xs)) }
    {
        let old = self.seen.insert(key, ())?;
        Ok(old.is_none())
    }
}

fn end_tag(end: End) -> u64
    ensures { result ≡ end_tag end }
{
    match end {
        End::Passed => 0,
        End::Returned => 1,
        End::Thrown(_) => 2,
        End::TimedOut => 3,
        End::MemoryOut => 4,
    }
}

fn end_name(end: End) -> u64
    ensures { result ≡ end_name end }
{
    match end {
        End::Thrown(name) => u64::from(name),
        End::Passed => 0,
        End::Returned => 0,
        End::TimedOut => 0,
        End::MemoryOut => 0,
    }
}

fn put_entries(entries: &[Entry], key: &mut Vec<u64>) -> Result<(), Memory>
    ensures { OnOk result (key.new.items ≡ key.old.items ++ flat_map entry_key entries.now) }
{
    for entry in entries {
        key.push(u64::from(entry.name))?;
        key.push(u64::from(entry.class))?;
    }
    Ok(())
}

fn put_pairs(pairs: &[(u32, u16)], key: &mut Vec<u64>) -> Result<(), Memory>
    ensures { OnOk result (key.new.items ≡ key.old.items ++ flat_map pair_key pairs.now) }
{
    for pair in pairs {
        key.push(u64::from(pair.0))?;
        key.push(u64::from(pair.1))?;
    }
    Ok(())
}

// The numbers of a row that stand before its lists.
fn front_of(alloc: Global, row: &Row) -> Result<Vec<u64>, Memory>
    ensures { IfOk result (λ key. key.items ≡ front_of row.now) }
{
    let front = [
        u64::from(row.test_class),
        u64::from(row.test_method),
        u64::from(row.heap),
        u64::from(row.depth),
        row.limit,
        end_tag(row.end),
        end_name(row.end),
        row.steps,
        row.consulted.len() as u64,
    ];
    let mut key = Vec::new(alloc);
    key.extend_from_slice(&front)?;
    Ok(key)
}

/// The key of a row.
pub fn key_of(alloc: Global, row: &Row) -> Result<Vec<u64>, Memory>
    ensures { IfOk result (λ key. key.items ≡ key_of row.now) }
{
    let mut key = front_of(alloc, row)?;
    put_entries(row.consulted.as_slice(), &mut key)?;
    put_pairs(row.reached.as_slice(), &mut key)?;
    Ok(key)
}

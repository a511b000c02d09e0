//! The entries of the constant pool that an edit needs.

ghost use Rattle.std.specs.Prelude.{◌≡◌, ◌+◌, ◌<◌, ◌^◌, ◌++◌, nat_lt, length};
ghost use Rattle.std.specs.List.{position_from};
ghost use Rattle.class_model.specs.declared.constant.Const.TheVariants as const;
ghost use Rattle.mutant_apply.specs.Entries.{is_text, is_entry, index_of, empty_string, method_of};
ghost use Rattle.mutant_apply.specs.Room.{Adds};

use crate::refusal::Refusal;
use class_model::{Const, Memory, Name, Seq};

fn is_text(units: &[u16], other: &Const) -> bool
    ensures { result ≡ is_text units.now other.now }
{
    match other {
        Const::Utf8(others) => *units == *others.as_slice(),
        _ => false,
    }
}

fn is_entry(entry: &Const, other: &Const) -> bool
    ensures { result ≡ is_entry entry.now other.now }
{
    match (entry, other) {
        (Const::Utf8(units), _) => is_text(units.as_slice(), other),
        (Const::Class(name), Const::Class(n)) => *name == *n,
        (Const::Text(units), Const::Text(u)) => *units == *u,
        (Const::Pair(name, desc), Const::Pair(n, d)) => *name == *n && *desc == *d,
        (Const::Method(class, pair), Const::Method(c, p)) => *class == *c && *pair == *p,
        _ => false,
    }
}

// The index of the first equal entry among these, which have the indices from `first` on.
fn index_from(entries: &[Const], first: usize, wanted: &Const) -> Option<usize>
    requires { first + length entries.now < 2 ^ 64 }
    ensures { result ≡ position_from (is_entry wanted.now) first entries.now }
{
    let mut index = first;
    for entry in entries {
        if is_entry(wanted, entry) {
            return Some(index);
        }
        index += 1;
    }
    None
}

#[tactic(auto, using(crate::proofs::EntryLaws::found_in_front, crate::proofs::EntryLaws::found_behind))]
fn index_in(pool: &[Const], added: &[Const], wanted: &Const) -> Option<usize>
    requires { length pool.now + length added.now + 1 < 2 ^ 16 }
    ensures { result ≡ position_from (is_entry wanted.now) 1 (pool.now ++ added.now) }
{
    match index_from(pool, 1, wanted) {
        Some(index) => Some(index),
        None => index_from(added, pool.len() + 1, wanted),
    }
}

// The count of the pool has room.
fn has_room(pool: &[Const], added: &[Const]) -> bool
    ensures { result ≡ nat_lt (length pool.now + length added.now + 1) (2 ^ 16) }
{
    pool.len() as u128 + (added.len() as u128) + 1 < 0x1_0000
}

/// The index of an entry in a pool with the entries that an edit adds: the lowest where an equal
/// one stands, else that behind the last one, where it is added.
pub fn index_of(pool: &[Const], entry: Const, added: &mut Seq<Const>) -> Result<u16, Refusal>
    ensures { Adds (index_of pool.now entry added.old) added.new result }
{
    if !has_room(pool, added.as_slice()) {
        return Err(Refusal::NoLayout);
    }
    if let Some(index) = index_in(pool, added.as_slice(), &entry) {
        return Ok(index as u16);
    }
    added.push(entry)?;
    if !has_room(pool, added.as_slice()) {
        return Err(Refusal::NoLayout);
    }
    Ok((pool.len() + added.len()) as u16)
}

fn text_index(pool: &[Const], units: &Name, added: &mut Seq<Const>) -> Result<u16, Refusal>
    ensures { Adds (index_of pool.now (const.Utf8 units.now) added.old) added.new result }
{
    index_of(pool, Const::Utf8(units.copy()?), added)
}

/// The index of the empty string.
pub fn empty_string(pool: &[Const], added: &mut Seq<Const>) -> Result<u16, Refusal>
    ensures { Adds (empty_string pool.now added.old) added.new result }
{
    let units = index_of(pool, Const::Utf8(Seq::new(added.allocator())), added)?;
    index_of(pool, Const::Text(units), added)
}

/// The index of a class's method.
pub fn method_of(
    pool: &[Const],
    class: &Name,
    name: &Name,
    desc: &Name,
    added: &mut Seq<Const>,
) -> Result<u16, Refusal>
    ensures { Adds (method_of pool.now class.now name.now desc.now added.old) added.new result }
{
    let class = text_index(pool, class, added)?;
    let owner = index_of(pool, Const::Class(class), added)?;
    let name = text_index(pool, name, added)?;
    let desc = text_index(pool, desc, added)?;
    let pair = index_of(pool, Const::Pair(name, desc), added)?;
    index_of(pool, Const::Method(owner, pair), added)
}

//! What a shard owns.

ghost use Rattle.std.specs.Prelude.{◌≡◌, ◌≤◌, ◌<◌, ◌++◌, ◌∷◌, [], IfOk, OnOk, if◌then◌else◌};
ghost use Rattle.shard_rules.specs.Owners.{owned, owns};

use class_model::{Memory, Seq};
use std::alloc::Global;

/// Whether shard `index` of `of`, which count from 1, owns what stands at a place of a list, which
/// counts from 0.
pub fn owns(place: u64, index: u16, of: u16) -> bool
    requires first { 0 < index }
    requires last { index ≤ of }
    ensures { result ≡ owns place index of }
{
    place % u64::from(of) + 1 == u64::from(index)
}

// Adds an item, if it is the shard's.
fn keep_if<T: Drop>(own: bool, item: T, items: &mut Seq<T>) -> Result<(), Memory>
    ensures { OnOk result (items.new ≡ items.old ++ (if own then item ∷ [] else [])) }
{
    if own {
        items.push(item)?;
    }
    Ok(())
}

/// What the shard owns of a list, in order.
pub fn owned<T: Drop>(alloc: Global, index: u16, of: u16, items: Seq<T>) -> Result<Seq<T>, Memory>
    requires first { 0 < index }
    requires last { index ≤ of }
    ensures { IfOk result (λ own. own ≡ owned index of items) }
{
    let mut own = Seq::new(alloc);
    let mut place = 0u64;
    for item in items.into_vec() {
        let is_own = owns(place, index, of);
        keep_if(is_own, item, &mut own)?;
        place += 1;
    }
    Ok(own)
}

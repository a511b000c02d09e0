//! What stands above each class, kept so that a look upwards takes no memory.

ghost use Rattle.std.specs.Prelude.{◌≡◌, ◌+◌, ◌<◌, ◌≤◌, ◌^◌, ◌↔◌, [], ◌∷◌, length, drop, slice_get, Some, IfOk, IfSome, IfNone, OnOk, IsTrue};
ghost use Rattle.class_order.specs.Graph.{supers_at, AreWithin};
ghost use Rattle.class_order.specs.Walks.{Stands};
ghost use Rattle.class_order.specs.Above.{IsOver, is_here, through_at, rank_of, AreRanked, AreFalling, IsWayUp, IsRow, AreRows};
ghost use Rattle.class_order.specs.Searches.{AreMarks};

use crate::links::Links;
use crate::search::{Search, close, note_one, note_supers};
use crate::standing::Standing;
use crate::walk::{is_among, next_super};
use class_model::Memory;
use std::alloc::Global;

/// What stands above a class: one of its supers, with all above that one, and the classes beside.
#[derive(Drop)]
pub struct Above {
    pub through: Option<u32>,
    pub beside: Vec<u32, Global>,
    pub rank: u32,
}

// Whether a class is another one, or that one stands beside.
fn is_here(rows: &[Above], class: u32, over: u32) -> bool
    ensures { result ≡ is_here rows.now class over }
{
    if class == over {
        return true;
    }
    match rows.get(class as usize) {
        Some(row) => is_among(&row.beside, over),
        None => false,
    }
}

// The super that a class goes up through.
fn through(rows: &[Above], class: u32) -> Option<u32>
    ensures { result ≡ through_at rows.now class }
{
    rows.get(class as usize)?.through
}

/// Whether a class is another one or stands below it. It looks at each class above it at most once,
/// and takes no memory.
pub fn is_over(rows: &[Above], class: u32, over: u32) -> bool
    requires { AreFalling rows.now }
    ensures { IsTrue result ↔ IsOver rows.now class over }
{
    let mut at = class;
    while !is_here(rows, at, over) {
        match through(rows, at) {
            Some(up) => at = up,
            None => return false,
        }
    }
    true
}

// ---- how they are made

// Whether a class names no super.
fn is_top(links: &[Links], class: u32) -> bool
    ensures { IsTrue result → supers_at links.now class ≡ [] }
{
    match links.get(class as usize) {
        Some(own) => own.parent.is_none() && own.interfaces.is_empty(),
        None => true,
    }
}

// The super that a class goes up through: the first one, but where that is Object, as it is of each
// interface, the second one.
fn choose(links: &[Links], class: u32) -> Option<u32>
    requires { class < length links.now }
    ensures some { IfSome result (λ u. Stands (supers_at links.now class) u) }
    ensures none { IfNone result (supers_at links.now class ≡ []) }
{
    let Some(first) = next_super(links, class, 0) else {
        return None;
    };
    let Some(second) = next_super(links, class, 1) else {
        return Some(first);
    };
    if is_top(links, first) {
        return Some(second);
    }
    Some(first)
}

// A search of so many classes before the first one.
fn start(alloc: Global, count: usize) -> Result<Search, Memory>
    ensures { IfOk result (AreMarks count 0) }
{
    Ok(Search {
        marks: vec![in alloc; 0; count]?,
        found: Vec::new(alloc),
    })
}

// These numbers from a place on.
fn behind(alloc: Global, numbers: &[u32], from: usize) -> Result<Vec<u32, Global>, Memory>
    requires { from ≤ length numbers.now }
    ensures { IfOk result (λ v. v.items ≡ drop from numbers.now) }
{
    Ok(numbers[from..].to_vec(alloc)?)
}

// The classes above a class that are neither this super of it nor above that one.
fn beside(
    alloc: Global,
    links: &[Links],
    search: &mut Search,
    class: u32,
    through: u32,
) -> Result<Vec<u32, Global>, Memory>
    requires within { AreWithin links.now (length links.now) }
    requires class { class < length links.now }
    requires few { length links.now < 2 ^ 32 }
    requires marks { AreMarks (length links.now) class search.old }
    requires through { Stands (supers_at links.now class) through }
    ensures way { IfOk result (λ b. IsWayUp links.now class (Some through) b.items) }
    ensures marks { OnOk result (AreMarks (length links.now) (class + 1) search.new) }
{
    let stamp = class + 1;
    search.found.clear();
    note_one(search, stamp, through)?;
    close(links, search, stamp, 0)?;
    let split = search.found.len();
    note_supers(links, search, stamp, class)?;
    close(links, search, stamp, split)?;
    behind(alloc, &search.found, split)
}

// The other super of a class that names two, where that one is a top.
fn other_top(links: &[Links], class: u32, through: u32) -> Option<u32>
    requires class { class < length links.now }
    requires through { Stands (supers_at links.now class) through }
    ensures { IfSome result (λ t. IsWayUp links.now class (Some through) (t ∷ [])) }
{
    let first = next_super(links, class, 0)?;
    let second = next_super(links, class, 1)?;
    let None = next_super(links, class, 2) else {
        return None;
    };
    if second == through && is_top(links, first) {
        return Some(first);
    }
    None
}

// This number alone.
fn alone(alloc: Global, number: u32) -> Result<Vec<u32, Global>, Memory>
    ensures { IfOk result (λ v. v.items ≡ number ∷ []) }
{
    Ok(vec![in alloc; number]?)
}

// The same, without a search where the class names no other super, or one that is a top, as Object
// is beside the interface that an interface names.
fn others(
    alloc: Global,
    links: &[Links],
    search: &mut Search,
    class: u32,
    through: u32,
) -> Result<Vec<u32, Global>, Memory>
    requires within { AreWithin links.now (length links.now) }
    requires class { class < length links.now }
    requires few { length links.now < 2 ^ 32 }
    requires marks { AreMarks (length links.now) class search.old }
    requires through { Stands (supers_at links.now class) through }
    ensures way { IfOk result (λ b. IsWayUp links.now class (Some through) b.items) }
    ensures marks { OnOk result (AreMarks (length links.now) (class + 1) search.new) }
{
    let Some(_) = next_super(links, class, 1) else {
        return Ok(Vec::new(alloc));
    };
    match other_top(links, class, through) {
        Some(top) => Ok(alone(alloc, top)?),
        None => beside(alloc, links, search, class, through),
    }
}

// What stands above a class.
fn row(
    alloc: Global,
    links: &[Links],
    search: &mut Search,
    class: u32,
    rank: u32,
) -> Result<Above, Memory>
    requires within { AreWithin links.now (length links.now) }
    requires class { class < length links.now }
    requires few { length links.now < 2 ^ 32 }
    requires marks { AreMarks (length links.now) class search.old }
    ensures row { IfOk result (IsRow links.now class) }
    ensures rank { IfOk result (λ r. r.rank ≡ rank) }
    ensures marks { OnOk result (AreMarks (length links.now) (class + 1) search.new) }
{
    let Some(through) = choose(links, class) else {
        return Ok(Above {
            through: None,
            beside: Vec::new(alloc),
            rank,
        });
    };
    let beside = others(alloc, links, search, class, through)?;
    Ok(Above {
        through: Some(through),
        beside,
        rank,
    })
}

// The rank of a class.
fn rank(found: &[Standing], class: u32) -> u32
    ensures { result ≡ rank_of (slice_get found.now class) }
{
    match found.get(class as usize) {
        Some(Standing::Ranked(rank)) => *rank,
        _ => 0,
    }
}

/// What stands above each class, where classes have ranks.
pub fn all_above(
    alloc: Global,
    links: &[Links],
    found: &[Standing],
) -> Result<Vec<Above, Global>, Memory>
    requires within { AreWithin links.now (length links.now) }
    requires few { length links.now < 2 ^ 32 }
    requires ranked { AreRanked links.now found.now }
    ensures { IfOk result (λ rows. AreRows links.now rows.items) }
{
    let mut search = start(alloc, links.len())?;
    let mut rows = Vec::with_capacity(alloc, links.len())?;
    for class in 0..links.len() as u32 {
        rows.push(row(alloc, links, &mut search, class, rank(found, class))?)?;
    }
    Ok(rows)
}

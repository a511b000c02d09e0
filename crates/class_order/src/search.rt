//! The search for all above some classes.

ghost use Rattle.std.specs.Prelude.{◌≡◌, ◌<◌, length, slice_get, Some, OnOk, [], ◌∷◌, IfSome};
ghost use Rattle.class_order.specs.Graph.{supers_at, with_parent, AreWithin};
ghost use Rattle.class_order.specs.Walks.{AllBelow};
ghost use Rattle.class_order.specs.Searches.{IsSearch, Notes, Finds, Closes};

use crate::links::Links;
use class_model::Memory;
use std::alloc::Global;

/// The classes that a search has found, and for each class the number of the last search that found
/// it. So nothing has to be cleared before the next search.
#[derive(Drop)]
pub struct Search {
    pub marks: Vec<u32, Global>,
    pub found: Vec<u32, Global>,
}

// Notes a class, unless it was found.
fn note(search: &mut Search, stamp: u32, class: u32) -> Result<(), Memory>
    requires { class < length search.old.marks.items }
    ensures { OnOk result (Notes stamp class search.old search.new) }
{
    if search.marks[class as usize] == stamp {
        return Ok(());
    }
    search.found.push(class)?;
    search.marks[class as usize] = stamp;
    Ok(())
}

// Notes these classes.
fn note_all(search: &mut Search, stamp: u32, classes: &[u32]) -> Result<(), Memory>
    requires within { AllBelow classes.now (length search.old.marks.items) }
    requires search { IsSearch (length search.old.marks.items) stamp search.old }
    ensures { OnOk result
        (Finds (length search.old.marks.items) stamp classes.now search.old search.new) }
{
    for class in classes {
        note(search, stamp, *class)?;
    }
    Ok(())
}

/// Notes a class.
pub fn note_one(search: &mut Search, stamp: u32, class: u32) -> Result<(), Memory>
    requires within { class < length search.old.marks.items }
    requires search { IsSearch (length search.old.marks.items) stamp search.old }
    ensures { OnOk result
        (Finds (length search.old.marks.items) stamp (class ∷ []) search.old search.new) }
{
    note(search, stamp, class)
}

// Notes the superclass of a class, if it has one.
fn note_parent(search: &mut Search, stamp: u32, parent: Option<u32>) -> Result<(), Memory>
    requires within { IfSome parent (λ p. p < length search.old.marks.items) }
    requires search { IsSearch (length search.old.marks.items) stamp search.old }
    ensures { OnOk result (Finds (length search.old.marks.items) stamp
        (with_parent parent []) search.old search.new) }
{
    match parent {
        Some(parent) => note_one(search, stamp, parent),
        None => Ok(()),
    }
}

/// Notes the supers of a class.
pub fn note_supers(
    links: &[Links],
    search: &mut Search,
    stamp: u32,
    class: u32,
) -> Result<(), Memory>
    requires within { AreWithin links.now (length links.now) }
    requires class { class < length links.now }
    requires search { IsSearch (length links.now) stamp search.old }
    ensures { OnOk result
        (Finds (length links.now) stamp (supers_at links.now class) search.old search.new) }
{
    let own = &links[class as usize];
    note_parent(search, stamp, own.parent)?;
    note_all(search, stamp, &own.interfaces)
}

// The class at a place of what was found.
fn class_at(search: &Search, at: usize) -> u32
    requires { at < length search.now.found.items }
    ensures { slice_get search.now.found.items at ≡ Some result }
{
    search.found[at]
}

/// Notes all above the classes that were found, from this place on.
pub fn close(links: &[Links], search: &mut Search, stamp: u32, from: usize) -> Result<(), Memory>
    requires within { AreWithin links.now (length links.now) }
    requires search { IsSearch (length links.now) stamp search.old }
    ensures { OnOk result (Closes links.now stamp from search.old search.new) }
{
    let mut at = from;
    while at < search.found.len() {
        let class = class_at(search, at);
        note_supers(links, search, stamp, class)?;
        at += 1;
    }
    Ok(())
}

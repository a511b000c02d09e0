//! What is held by the number of a class and an index of its constant pool.

ghost use Rattle.std.specs.Prelude.{◌≡◌, ℕ, ◌<◌, if◌then◌else◌, nat_eq, [], Some, None, length, OnOk, OnErr};
ghost use Rattle.std.proofs.Common.{get_or};
ghost use Rattle.jvm_link.specs.Holding.{held, Holds, HoldSame};

use class_model::{ClassId, Memory};
use std::marker::Model;

/// What is held for the indices of one class, up to the last one that anything is held for.
#[derive(Drop)]
pub struct Held<T> {
    items: Vec<Option<T>>,
}

impl<T> Model for Held<T> {
    ghost use Rattle.std.specs.Prelude.{List, Option};
    ghost use Rattle.std.specs.Coded.{coded_list, coded_option};

    ghost Value = { List (Option T) };

    ghost coded = { coded_list (coded_option T.code) };

    ghost view = { λ h. h.items.items };
}

impl<T: Copy + Drop> Held<T> {
    // Makes place for an index.
    fn make_place(&mut self, index: usize) -> Result<(), Memory>
        ensures same { (i : ℕ) → get_or self.new i None ≡ get_or self.old i None }
        ensures place { OnOk result (index < length self.new) }
    {
        make_slot(&mut self.items, index)
    }

    // Holds this where there is place for it.
    fn put(&mut self, index: usize, item: T)
        requires { index < length self.old }
        ensures { (i : ℕ) → get_or self.new i None
            ≡ (if nat_eq index i then Some item else get_or self.old i None) }
    {
        self.items[index] = Some(item);
    }
}

// Makes sure that a list has a place.
fn make_slot<T: Copy + Drop>(items: &mut Vec<Option<T>>, at: usize) -> Result<(), Memory>
    ensures same { (i : ℕ) → get_or items.new.items i None ≡ get_or items.old.items i None }
    ensures place { OnOk result (at < length items.new.items) }
{
    while items.len() <= at {
        items.push(None)?;
    }
    Ok(())
}

// Makes place for an index of a class.
fn make_place<T: Copy + Drop>(
    rows: &mut Vec<Held<T>>,
    class: usize,
    index: usize,
) -> Result<(), Memory>
    ensures same { HoldSame rows.old.items rows.new.items }
    ensures class { OnOk result (class < length rows.new.items) }
    ensures place { OnOk result (index < length (get_or rows.new.items class [])) }
{
    let alloc = *rows.allocator();
    while rows.len() <= class {
        rows.push(Held {
            items: Vec::new(alloc),
        })?;
    }
    rows[class].make_place(index)
}

// Holds this where there is place for it.
fn put<T: Copy + Drop>(rows: &mut [Held<T>], class: usize, index: usize, item: T)
    requires class { class < length rows.old }
    requires place { index < length (get_or rows.old class []) }
    ensures { Holds class index item rows.old rows.new }
{
    rows[class].put(index, item);
}

/// What is held for an index of a class.
#[inline(always)]
pub fn held_at<T: Copy + Drop>(rows: &[Held<T>], class: ClassId, index: u32) -> Option<T>
    ensures { result ≡ held class.0 index rows.now }
{
    let Some(row) = rows.get(class.0 as usize) else {
        return None;
    };
    let Some(item) = row.items.get(index as usize) else {
        return None;
    };
    *item
}

/// Holds this for an index of a class. Where memory runs out all is held that was.
pub fn hold<T: Copy + Drop>(
    rows: &mut Vec<Held<T>>,
    class: ClassId,
    index: u32,
    item: T,
) -> Result<(), Memory>
    ensures held { OnOk result (Holds class.0 index item rows.old.items rows.new.items) }
    ensures err { OnErr result (HoldSame rows.old.items rows.new.items) }
{
    let at = class.0 as usize;
    make_place(rows, at, index as usize)?;
    put(rows, at, index as usize, item);
    Ok(())
}

//! The values of static fields, by class and place.

ghost use Rattle.std.specs.Prelude.{◌≡◌, ℕ, ◌&&◌, ◌<◌, nat_eq, if◌then◌else◌, [], Some, None, length, OnOk, OnErr};
ghost use Rattle.std.proofs.Common.{get_or};
ghost use Rattle.jvm_world.specs.Holding.{held, Stores, HoldSame};

use class_model::{ClassId, Memory};
use jvm_marks::make_place;
use program_rules::Value;
use std::alloc::Global;
use std::marker::Model;

// The values that the static fields of one class hold, by place.
#[derive(Drop)]
struct Row {
    values: Vec<Option<Value>>,
}

impl Model for Row {
    ghost use Rattle.std.specs.Prelude.{List, Option};
    ghost use Rattle.program_rules.specs.declared.value.Value.{Value as Stored};

    ghost Value = { List (Option Stored) };

    ghost view = { λ r. r.values.items };
}

/// The values that were stored in static fields, for each class up to the last one that stored any.
#[derive(Drop)]
pub struct Statics {
    rows: Vec<Row>,
}

impl Model for Statics {
    ghost use Rattle.std.specs.Prelude.{List, Option};
    ghost use Rattle.program_rules.specs.declared.value.Value.{Value as Stored};

    ghost Value = { List (List (Option Stored)) };

    ghost view = { λ s. s.rows.items };
}

impl Statics {
    /// Nothing was stored.
    pub fn new(alloc: Global) -> Statics
        ensures { result ≡ [] }
    {
        Statics {
            rows: Vec::new(alloc),
        }
    }

    /// What was stored last in the static field of a class at a place.
    pub fn get(&self, class: ClassId, place: u32) -> Option<Value>
        ensures { result ≡ held class.0 place self.now }
    {
        value_in(&self.rows, class.0 as usize, place as usize)
    }

    /// Stores a value in the static field of a class at a place. Where memory runs out each field
    /// holds what it held.
    pub fn set(&mut self, class: ClassId, place: u32, value: Value) -> Result<(), Memory>
        ensures set { OnOk result (Stores class.0 place value self.old self.new) }
        ensures err { OnErr result (HoldSame self.old self.new) }
    {
        make_value(&mut self.rows, class.0 as usize, place as usize)?;
        put(&mut self.rows, class.0 as usize, place as usize, value);
        Ok(())
    }
}

// What is held for a class at a place.
fn value_in(rows: &[Row], class: usize, place: usize) -> Option<Value>
    ensures { result ≡ held class place rows.now }
{
    let Some(row) = rows.get(class) else {
        return None;
    };
    let Some(value) = row.values.get(place) else {
        return None;
    };
    *value
}

// Makes place for a value.
fn make_value(rows: &mut Vec<Row>, class: usize, place: usize) -> Result<(), Memory>
    ensures same { HoldSame rows.old.items rows.new.items }
    ensures class { OnOk result (class < length rows.new.items) }
    ensures place { OnOk result (place < length (get_or rows.new.items class [])) }
{
    let alloc = *rows.allocator();
    while rows.len() <= class {
        rows.push(Row {
            values: Vec::new(alloc),
        })?;
    }
    rows[class].make_place(place)
}

// Puts a value where there is place for it.
fn put(rows: &mut [Row], class: usize, place: usize, value: Value)
    requires class { class < length rows.old }
    requires place { place < length (get_or rows.old class []) }
    ensures { Stores class place value rows.old rows.new }
{
    rows[class].put(place, value);
}

impl Row {
    // Makes place for a value.
    fn make_place(&mut self, place: usize) -> Result<(), Memory>
        ensures same { (l : ℕ) → get_or self.new l None ≡ get_or self.old l None }
        ensures place { OnOk result (place < length self.new) }
    {
        make_place(&mut self.values, place, None)
    }

    // Puts a value where there is place for it.
    fn put(&mut self, place: usize, value: Value)
        requires { place < length self.old }
        ensures { (l : ℕ) → get_or self.new l None
            ≡ (if nat_eq place l then Some value else get_or self.old l None) }
    {
        self.values[place] = Some(value);
    }
}

//! The classes that records use, numbered by their first use.

ghost use Rattle.std.specs.Prelude.{◌≡◌, ◌<◌, ◌≤◌, ◌^◌, ℕ, List, [], length, map, nat_eq, not, slice_index, IfOk, OnOk};
ghost use Rattle.history_rules.specs.Classes.{class_of, number_of};
ghost use Rattle.history_rules.specs.Histories.{class_put, classes_used, classes_behind};
ghost use Rattle.history_rules.specs.Laws.{AreDifferent};
ghost use Rattle.history_file.specs.Reading.{entries_of};
ghost use Rattle.history_file.specs.Writing.{IsOrder, UsesMore, classes_of, used_by};
ghost use Rattle.history_file.specs.Writing.{AreEntries, AreRows, records_in};

use crate::row::{Entry, Row};
use class_model::{Memory, Seq};
use std::alloc::Global;

/// Classes, and which of them are used.
#[derive(Drop)]
pub struct Order<'a> {
    classes: &'a [&'a [u8]],
    // for each class its number among the used ones, from 1; 0 where it isn't used
    numbers: Vec<u32>,
    used: Seq<&'a [u8]>,
}

impl<'a> Order<'a> {
    // None of these classes is used.
    fn new(alloc: Global, classes: &'a [&'a [u8]]) -> Result<Order<'a>, Memory>
        requires different { AreDifferent (map (λ s. s.now) classes.now) }
        requires few { length (map (λ s. s.now) classes.now) < 2 ^ 32 }
        ensures order { IfOk result (λ o. IsOrder o) }
        ensures classes { IfOk result (λ o. classes_of o ≡ map (λ s. s.now) classes.entry.now) }
        ensures used { IfOk result (λ o. used_by o ≡ []) }
    {
        let numbers = vec![in alloc; 0; classes.len()]?;
        Ok(Order {
            classes,
            numbers,
            used: Seq::new(alloc),
        })
    }

    /// The classes that records use.
    pub fn of(alloc: Global, classes: &'a [&'a [u8]], rows: &[Row]) -> Result<Order<'a>, Memory>
        requires different { AreDifferent (map (λ s. s.now) classes.now) }
        requires few { length (map (λ s. s.now) classes.now) < 2 ^ 32 }
        requires rows { AreRows (length (map (λ s. s.now) classes.now)) rows.now }
        ensures order { IfOk result (λ o. IsOrder o) }
        ensures classes { IfOk result (λ o. classes_of o ≡ map (λ s. s.now) classes.entry.now) }
        ensures used { IfOk result (λ o. (texts : List (List ℕ)) → used_by o
            ≡ classes_behind [] (records_in texts (map (λ s. s.now) classes.entry.now) rows.now)) }
    {
        let mut order = Order::new(alloc, classes)?;
        order.put_rows(rows)?;
        Ok(order)
    }

    // A class by its number, where there is one; it comes next unless it is used already.
    fn put(&mut self, class: u32) -> Result<(), Memory>
        requires order { IsOrder self.old }
        requires there { class ≤ length (classes_of self.old) }
        ensures { OnOk result (UsesMore self.old self.new
            (class_put (used_by self.old) (class_of (classes_of self.old) class))) }
    {
        if class == 0 {
            return Ok(());
        }
        let at = class as usize - 1;
        if self.is_used(at) {
            return Ok(());
        }
        let classes = self.classes;
        self.used.push(classes[at])?;
        let number = self.used_count();
        self.numbers[at] = number;
        Ok(())
    }

    // Whether the class at a place is used.
    fn is_used(&self, at: usize) -> bool
        requires { at < length self.now.numbers.items }
        ensures { result ≡ not (nat_eq (slice_index self.now.numbers.items at) 0) }
    {
        self.number_at(at) != 0
    }

    fn number_at(&self, at: usize) -> u32
        requires { at < length self.now.numbers.items }
        ensures { result ≡ slice_index self.now.numbers.items at }
    {
        self.numbers[at]
    }

    fn used_count(&self) -> u32
        requires { length self.now.used < 2 ^ 32 }
        ensures { result ≡ length self.now.used }
    {
        self.used.len() as u32
    }

    fn put_entries(&mut self, entries: &[Entry]) -> Result<(), Memory>
        requires order { IsOrder self.old }
        requires there { AreEntries (length (classes_of self.old)) entries.now }
        ensures { OnOk result ((texts : List (List ℕ)) → UsesMore self.old self.new
            (classes_used (used_by self.old)
            (entries_of (classes_of self.old) texts entries.now))) }
    {
        for entry in entries {
            self.put(entry.class)?;
        }
        Ok(())
    }

    fn put_rows(&mut self, rows: &[Row]) -> Result<(), Memory>
        requires order { IsOrder self.old }
        requires there { AreRows (length (classes_of self.old)) rows.now }
        ensures { OnOk result ((texts : List (List ℕ)) → UsesMore self.old self.new
            (classes_behind (used_by self.old)
            (records_in texts (classes_of self.old) rows.now))) }
    {
        for row in rows {
            self.put_entries(row.consulted.as_slice())?;
        }
        Ok(())
    }

    /// The classes that are used, in the order of their numbers.
    pub fn used(&self) -> &[&'a [u8]]
        ensures { map (λ s. s.now) result.now ≡ used_by self.now }
    {
        self.used.as_slice()
    }

    /// The number of a used class by that of the history; 0 where there is no class.
    pub fn number(&self, class: u32) -> u32
        requires order { IsOrder self.now }
        requires there { class ≤ length (classes_of self.now) }
        requires used { number_of (used_by self.now) (class_of (classes_of self.now) class)
            ≤ length (used_by self.now) }
        ensures { result ≡ number_of (used_by self.now) (class_of (classes_of self.now) class) }
    {
        if class == 0 {
            return 0;
        }
        self.number_at(class as usize - 1)
    }
}

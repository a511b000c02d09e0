//! Which records match the runs of a program, or would if one class were another.

ghost use Rattle.std.specs.Prelude.{◌≡◌, ◌<◌, ◌^◌, ℕ, suc, nat_eq, length, List, [], Option, slice_get, option_and_then, IfOk, OnOk};
ghost use Rattle.record_rules.specs.Records.{Asked};
ghost use Rattle.history_index.specs.Firsts.{first_at, run_at, whole_at};
ghost use Rattle.history_index.specs.Numbers.{Indexed};
ghost use Rattle.history_index.specs.Lookouts.{AddsApart, AddsOpen, AddsRow, AddsWhole};
ghost use Rattle.history_index.specs.Lookouts.{IsAskedBy, IsLookoutOn, LengthensOne, is_fit_under};
ghost use Rattle.history_index.specs.Lookouts.{is_same, open_here, open_test};
ghost use Rattle.history_index.specs.Standings.{listed};
ghost use Rattle.history_index.specs.Lookouts.{FindsFirst, HasRoom, IsEmptyLookout, IsLookout, Lengthens};
ghost use Rattle.history_index.specs.Lookouts.{Question, earlier, place_of_test, place_swapped, place_told, question_of};

use crate::firsts::Firsts;
use crate::index::HistoryIndex;
use crate::lists::{Places, count_at, no_places, place_at, push_at};
use crate::matching::{all_hold_with, first_miss, is_fit};
use crate::runs::Runs;
use crate::standings::{Standings, Swap};
use class_model::Memory;
use history_file::{Entry, Row};
use machine_rules::Limits;
use std::alloc::Global;

/// What look-ups for a program go by, under the same limits, and for each test under one number of
/// steps. It is found once; a look-up then compares numbers alone, and how many it compares doesn't
/// go by the records.
#[derive(Drop)]
pub struct Lookout {
    standings: Standings,
    // for each test the places of the records that match
    whole: Vec<Places>,
    // how many of these, from the first on, name a name
    runs: Runs,
    // the first record that would match if the class of a name were another
    firsts: Firsts,
}

// The smaller of two places.
fn earlier(one: Option<u32>, other: Option<u32>) -> Option<u32>
    ensures { result ≡ earlier one other }
{
    match (one, other) {
        (Some(a), Some(b)) => Some(if b < a { b } else { a }),
        (None, place) => place,
        (place, None) => place,
    }
}

// Whether the limits are a record's, and its steps fit the bound of its test, if there is one.
fn is_fit_under(limits: Limits, row: &Row, bound: Option<u64>) -> bool
    ensures { result ≡ is_fit_under limits row.now bound }
{
    match bound {
        Some(limit) => is_fit(limits, limit, row),
        None => false,
    }
}

// The test to whose runs a record is open.
fn open_test(index: &HistoryIndex, limits: Limits, bounds: &[u64], row: &Row) -> Option<u32>
    ensures { result ≡ open_test index.now (question_of limits bounds.now) row.now }
{
    match index.test_of(row) {
        Some(test) => open_here(limits, bounds, row, test),
        None => None,
    }
}

fn open_here(limits: Limits, bounds: &[u64], row: &Row, test: u32) -> Option<u32>
    ensures { result ≡ open_here (question_of limits bounds.now) row.now test }
{
    if is_fit_under(limits, row, bounds.get(test as usize).copied()) {
        Some(test)
    } else {
        None
    }
}

fn is_same(one: Option<u32>, other: Option<u32>) -> bool
    ensures { result ≡ is_same one other }
{
    match (one, other) {
        (Some(a), Some(b)) => a == b,
        (None, None) => true,
        _ => false,
    }
}

impl Lookout {
    /// The look-out for a program of these standings, under these limits; `bounds` has for each test
    /// of the history, by number, how many steps a run of it may take. Each record is looked at
    /// once.
    #[tactic(auto, using(crate::proofs::Adding::empty_on, crate::proofs::Adding::made))]
    pub fn new(
        alloc: Global,
        index: &HistoryIndex,
        standings: Standings,
        limits: Limits,
        bounds: &[u64],
    ) -> Result<Lookout, Memory>
        ensures { IfOk result (IsLookout index.now
            (question_of limits bounds.now) standings) }
    {
        let tests = index.tests().len();
        let rows = index.history().rows();
        let mut lookout = Lookout::empty(alloc, standings, tests)?;
        lookout.add_all(index, limits, bounds, rows)?;
        Ok(lookout)
    }

    // One of no records, for so many tests.
    fn empty(alloc: Global, standings: Standings, tests: usize) -> Result<Lookout, Memory>
        ensures { IfOk result (IsEmptyLookout tests standings) }
    {
        Ok(Lookout {
            standings,
            whole: no_places(alloc, tests)?,
            runs: Runs::new(alloc, tests)?,
            firsts: Firsts::new(alloc, tests)?,
        })
    }

    // All of these records, of no others.
    fn add_all(
        &mut self,
        index: &HistoryIndex,
        limits: Limits,
        bounds: &[u64],
        rows: &[Row],
    ) -> Result<(), Memory>
        requires few { length rows.now < 2 ^ 32 }
        requires none { IsLookoutOn index.now (question_of limits bounds.now)
            (listed self.old.standings) [] self.old }
        ensures standings { OnOk result (self.new.standings ≡ self.old.standings) }
        ensures on { OnOk result (IsLookoutOn index.now
            (question_of limits bounds.now) (listed self.old.standings)
            rows.now self.new) }
    {
        let mut place = 0;
        for row in rows {
            self.add(index, limits, bounds, place, row)?;
            place += 1;
        }
        Ok(())
    }

    // One record more, of this place.
    fn add(
        &mut self,
        index: &HistoryIndex,
        limits: Limits,
        bounds: &[u64],
        place: u32,
        row: &Row,
    ) -> Result<(), Memory>
        requires tests { length self.old.whole.items ≡ length index.now.tests }
        requires room { HasRoom place self.old }
        ensures { OnOk result (AddsRow index.now
            (question_of limits bounds.now) place row.now self.old self.new) }
    {
        match open_test(index, limits, bounds, row) {
            Some(test) => {
                self.add_open(test, place, row.consulted.as_slice())?;
                Ok(())
            }
            None => Ok(()),
        }
    }

    // The same of a record that is open to a test.
    fn add_open(&mut self, test: u32, place: u32, consulted: &[Entry]) -> Result<(), Memory>
        requires tests { test < length self.old.whole.items }
        requires room { HasRoom place self.old }
        ensures { OnOk result (AddsOpen test place consulted.now self.old self.new) }
    {
        match first_miss(&self.standings, consulted) {
            None => {
                self.add_whole(test, place, consulted)?;
                Ok(())
            }
            Some(miss) => {
                self.add_apart(test, place, miss, consulted)?;
                Ok(())
            }
        }
    }

    // The same of one that matches.
    fn add_whole(&mut self, test: u32, place: u32, consulted: &[Entry]) -> Result<(), Memory>
        requires tests { test < length self.old.whole.items }
        requires room { HasRoom place self.old }
        ensures { OnOk result (AddsWhole test place consulted.now self.old self.new) }
    {
        let before = count_at(self.whole.as_slice(), test);
        push_at(self.whole.as_mut_slice(), test, place)?;
        let after = before + 1;
        lengthen(&mut self.runs, test, before, after, consulted)?;
        Ok(())
    }

    // The same of one that doesn't, for this entry first.
    fn add_apart(
        &mut self,
        test: u32,
        place: u32,
        miss: Entry,
        consulted: &[Entry],
    ) -> Result<(), Memory>
        ensures { OnOk result (AddsApart test place miss consulted.now self.old self.new) }
    {
        if all_hold_with(&self.standings, miss, consulted) {
            self.firsts.note(test, miss.name, miss.class, place)?;
        }
        Ok(())
    }

    /// The place of the first record of the history that matches the run of a test, by its number if
    /// it has one: on the program, or on one that has another class file in one place.
    pub fn lookup(&self, test: Option<u32>, swap: Option<Swap>) -> Option<u32>
        ensures { (n : Indexed) (q : Question) (s : List (Option ℕ)) (x : Asked) →
            IsLookout n q s self.now → IsAskedBy n q s test swap x →
            FindsFirst n.history x result }
    {
        let place = self.place_told(test, swap);
        place
    }

    fn place_told(&self, test: Option<u32>, swap: Option<Swap>) -> Option<u32>
        ensures { result ≡ place_told self.now test swap }
    {
        match test {
            Some(test) => self.place_of_test(test, swap),
            None => None,
        }
    }

    fn place_of_test(&self, test: u32, swap: Option<Swap>) -> Option<u32>
        ensures { result ≡ place_of_test self.now test swap }
    {
        match swap {
            Some(swap) => self.place_swapped(test, swap),
            None => self.whole_at(test, 0),
        }
    }

    // The same of a program with another class file.
    fn place_swapped(&self, test: u32, swap: Swap) -> Option<u32>
        ensures { result ≡ place_swapped self.now test swap }
    {
        if is_same(self.standings.get(swap.name), swap.class) {
            return self.whole_at(test, 0);
        }
        let run = self.runs.get(test, swap.name);
        earlier(self.whole_at(test, run), self.first_at(test, swap))
    }

    // The place of the first record that would match, if its class is one of the history.
    fn first_at(&self, test: u32, swap: Swap) -> Option<u32>
        ensures { result ≡ option_and_then (first_at self.now.firsts test swap.name) swap.class }
    {
        match swap.class {
            Some(class) => self.firsts.get(test, swap.name, class),
            None => None,
        }
    }

    // The place of the record of this number among those of a test that match.
    fn whole_at(&self, test: u32, number: u32) -> Option<u32>
        ensures { result ≡ slice_get (whole_at self.now test) number }
    {
        let place = place_at(self.whole.as_slice(), test, number);
        place
    }
}

// Whether the run of a test and a name is so long.
fn is_run(runs: &Runs, test: u32, name: u32, len: u32) -> bool
    ensures { result ≡ nat_eq (run_at runs.now test name) len }
{
    runs.get(test, name) == len
}

// One record more of a test, behind so many, names this name.
fn lengthen_one(
    runs: &mut Runs,
    test: u32,
    before: u32,
    after: u32,
    name: u32,
) -> Result<(), Memory>
    ensures { OnOk result (LengthensOne test before after name runs.old runs.new) }
{
    if !is_run(runs, test, name, before) {
        return Ok(());
    }
    runs.set(test, name, after)?;
    Ok(())
}

// The same of these names.
fn lengthen(
    runs: &mut Runs,
    test: u32,
    before: u32,
    after: u32,
    consulted: &[Entry],
) -> Result<(), Memory>
    requires { after ≡ suc before }
    ensures { OnOk result (Lengthens test before consulted.now runs.old runs.new) }
{
    for entry in consulted {
        lengthen_one(runs, test, before, after, entry.name)?;
    }
    Ok(())
}

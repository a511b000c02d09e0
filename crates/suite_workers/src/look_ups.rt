//! What look-ups of old records go by, for the runs of tests on a program and on its mutants.

ghost use Rattle.std.specs.Prelude.{◌≡◌, IfOk, IfSome, is_none, length, map, option_map, replicate, zip};
ghost use Rattle.class_table.specs.Table.{look};
ghost use Rattle.history_index.specs.Numbers.{test_number};
ghost use Rattle.history_index.specs.Standings.{AreStandings};
ghost use Rattle.run_records.specs.Asking.{bytes_of, held_by};
ghost use Rattle.suite_workers.specs.Old.{AreByName, AreInHistory, AreLookUps, FindsEdited, FindsOriginal, IsIn};
ghost use Rattle.suite_workers.specs.Old.{bound_set, bounds_set, history_in, history_of, old_of, records_in};

use crate::old_records::{FoundRun, OldRecords};
use class_model::{ClassId, Memory, Seq};
use class_table::{ClassBody, ClassInfo, Program, Test};
use history_index::{HistoryIndex, Lookout, Standings, Swap};
use machine_rules::Limits;
use std::alloc::Global;

// What look-ups in a history go by: a look-out, and the number of each test there, if it has one.
#[derive(Drop)]
pub struct InHistory<'a, 'h> {
    pub index: &'a HistoryIndex<'h>,
    pub lookout: Lookout,
    pub numbers: Seq<Option<u32>>,
}

/// What look-ups of the runs of tests go by, on a program and where one of its class files is
/// another: each of these runs is under the same limits, and takes so many steps at most, by its
/// test. Nothing is looked up by text.
#[derive(Drop)]
pub struct LookUps<'a, 'h> {
    pub(crate) history: Option<InHistory<'a, 'h>>,
    pub(crate) bounds: Seq<u64>,
}

/// The bytes of a class's file, if it is of one.
pub fn bytes_of(info: &ClassInfo) -> Option<&[u8]>
    ensures { option_map (λ s. s.now) result ≡ bytes_of info.now }
{
    match info.body() {
        ClassBody::File(loaded) => Some(loaded.bytes.as_slice()),
        ClassBody::Edited(file) => Some(file.bytes.as_slice()),
        ClassBody::Library(_) => None,
    }
}

// Those of a program.
fn standings_of(alloc: Global, index: &HistoryIndex, program: &Program) -> Result<Standings, Memory>
    ensures { IfOk result
        (AreStandings index.now.history (look program.now) (held_by program.now)) }
{
    let mut standings = Standings::new(alloc, index)?;
    let count = program.len() as u32;
    for number in 0..count {
        let info = program.info(ClassId(number));
        let name = info.name();
        let file = bytes_of(info);
        standings.put(alloc, index, name, file)?;
    }
    Ok(standings)
}

// The history's number of each test.
fn numbers_of(
    alloc: Global,
    index: &HistoryIndex,
    tests: &[Test],
) -> Result<Seq<Option<u32>>, Memory>
    ensures { IfOk result (λ numbers. numbers
        ≡ map (λ t. test_number index.now t.class t.method) tests.now) }
{
    let mut numbers = Vec::with_capacity(alloc, tests.len())?;
    for test in tests {
        let number = index.test(alloc, &test.class, &test.method)?;
        numbers.push(number)?;
    }
    Ok(Seq::from_vec(numbers))
}

fn set_bound(all: &mut [u64], number: Option<u32>, bound: u64)
    ensures { all.new ≡ bound_set all.old number bound }
{
    if let Some(at) = number {
        let at = at as usize;
        if at < all.len() {
            all[at] = bound;
        }
    }
}

// The bounds of these tests, by their numbers.
fn set_bounds(all: &mut [u64], numbers: &[Option<u32>], bounds: &[u64])
    requires { length bounds.now ≡ length numbers.now }
    ensures { all.new ≡ bounds_set all.old (zip numbers.now bounds.now) }
{
    for (at, number) in numbers.iter().enumerate() {
        set_bound(all, *number, bounds[at]);
    }
}

// The bound of each test of a history that is one of these tests; 0 for others.
fn bounds_there(
    alloc: Global,
    count: usize,
    numbers: &[Option<u32>],
    bounds: &[u64],
) -> Result<Vec<u64>, Memory>
    requires { length bounds.now ≡ length numbers.now }
    ensures { IfOk result (λ all. all.items
        ≡ bounds_set (replicate count 0) (zip numbers.now bounds.now)) }
{
    let mut all = vec![in alloc; 0; count]?;
    set_bounds(&mut all, numbers, bounds);
    Ok(all)
}

fn in_history<'a, 'h>(
    alloc: Global,
    index: &'a HistoryIndex<'h>,
    program: &Program,
    tests: &[Test],
    limits: Limits,
    bounds: &[u64],
) -> Result<InHistory<'a, 'h>, Memory>
    requires long { length bounds.now ≡ length tests.now }
    requires named { AreByName tests.now bounds.now }
    ensures index { IfOk result (λ h. h.index.now ≡ index.now) }
    ensures there { IfOk result (AreInHistory program.now tests.now limits bounds.now) }
{
    let numbers = numbers_of(alloc, index, tests)?;
    let known = index.tests();
    let all = bounds_there(alloc, known.len(), numbers.as_slice(), bounds)?;
    let standings = standings_of(alloc, index, program)?;
    let lookout = Lookout::new(alloc, index, standings, limits, all.as_slice())?;
    Ok(InHistory {
        index,
        lookout,
        numbers,
    })
}

impl<'a, 'h> LookUps<'a, 'h> {
    /// What look-ups of the runs of these tests go by. It takes time by the names and bytes of the
    /// program's classes and by the history, once.
    pub fn new(
        alloc: Global,
        old: OldRecords<'a, 'h>,
        program: &Program,
        tests: &[Test],
        limits: Limits,
        bounds: &[u64],
    ) -> Result<LookUps<'a, 'h>, Memory>
        requires long { length bounds.now ≡ length tests.now }
        requires named { AreByName tests.now bounds.now }
        ensures of { IfOk result (AreLookUps program.now tests.now limits bounds.now) }
        ensures old { IfOk result (λ l. old_of l ≡ records_in old.entry) }
        ensures history { IfOk result (λ l. history_of l ≡ history_in old.entry) }
    {
        let copied = Seq::from_slice(alloc, bounds)?;
        match old {
            OldRecords::None => Ok(LookUps {
                history: None,
                bounds: copied,
            }),
            OldRecords::Of(index) => {
                let there = in_history(alloc, index, program, tests, limits, bounds)?;
                Ok(LookUps {
                    history: Some(there),
                    bounds: copied,
                })
            }
        }
    }

    /// Whether there are no old records.
    pub fn is_empty(&self) -> bool
        ensures { result ≡ is_none self.now.history }
    {
        self.history.is_none()
    }

    /// The old record that stands for the run of the test of this number on the program.
    pub fn original(&self, test: usize) -> Option<FoundRun<'a, 'h>>
        ensures finds { FindsOriginal self.now test result }
        ensures there { IfSome result (IsIn (history_of self.now)) }
    {
        self.found(test, None)
    }

    /// The same of its run where a class file is another one.
    pub fn on_edited(&self, test: usize, swap: Option<Swap>) -> Option<FoundRun<'a, 'h>>
        ensures finds { FindsEdited self.now test swap result }
        ensures there { IfSome result (IsIn (history_of self.now)) }
    {
        self.found(test, swap)
    }

    fn found(&self, test: usize, swap: Option<Swap>) -> Option<FoundRun<'a, 'h>>
        ensures finds { FindsEdited self.now test swap result }
        ensures there { IfSome result (IsIn (history_of self.now)) }
    {
        let Some(history) = &self.history else {
            return None;
        };
        let limit = *self.bounds.get(test)?;
        let number = *history.numbers.get(test)?;
        let place = history.lookout.lookup(number, swap)?;
        let found = FoundRun {
            index: history.index,
            place,
            limit,
        };
        let _row = found.row()?;
        Some(found)
    }
}

//! Old records, and one that was found among them.

ghost use Rattle.std.specs.Prelude.{◌≡◌, ℕ, IfOk, List, is_some, slice_get};
ghost use Rattle.std.specs.Option.{option_copied};
ghost use Rattle.history_file.specs.Rows.{name_of};
ghost use Rattle.suite_jobs.specs.Jobs.{says};
ghost use Rattle.suite_workers.specs.Old.{found_record, says_end};

use class_model::{Cause, Memory, Name, Seq, TextFault, read_text};
use history_file::{End, Row};
use history_index::HistoryIndex;
use mutator_ops::State;
use std::alloc::Global;

/// No records, or those of an index, in the order of its history.
#[derive(Clone, Copy)]
pub enum OldRecords<'a, 'h> {
    None,
    Of(&'a HistoryIndex<'h>),
}

/// An old record that matches a run, with the limit of that run. It names the record by its place,
/// so it takes no memory, whatever that says.
#[derive(Clone, Copy)]
pub struct FoundRun<'a, 'h> {
    pub index: &'a HistoryIndex<'h>,
    pub place: u32,
    pub limit: u64,
}

// Whether a run that ended so detects a mutant.
fn is_detecting(end: End) -> bool
    ensures { (texts : List (List ℕ)) → result ≡ is_some (says_end texts end) }
{
    !matches!(end, End::Passed)
}

impl<'a, 'h> FoundRun<'a, 'h> {
    /// The record, by number.
    pub fn row(&self) -> Option<&'a Row>
        ensures { option_copied result ≡ slice_get self.now.index.now.history.rows self.now.place }
    {
        self.index.history().rows().get(self.place as usize)
    }

    /// Whether its run detects a mutant.
    pub fn detects(&self) -> bool
        ensures { result ≡ is_some (says (found_record self.now)) }
    {
        match self.row() {
            Some(row) => is_detecting(row.end),
            None => false,
        }
    }

    /// How many steps its run took.
    pub fn steps(&self) -> u64
        ensures { result ≡ (found_record self.now).steps }
    {
        match self.row() {
            Some(row) => row.steps,
            None => 0,
        }
    }

    /// The state that it gives to a mutant, if its run detects one.
    pub fn state(&self, alloc: Global) -> Result<Option<State>, Memory>
        ensures { IfOk result (λ state. state ≡ says (found_record self.now)) }
    {
        match self.row() {
            Some(row) => state_at(alloc, self.index, row.end),
            None => Ok(None),
        }
    }
}

// The name of this number.
fn name_read(alloc: Global, index: &HistoryIndex, number: u32) -> Result<Name, Memory>
    ensures { IfOk result (λ name. name ≡ name_of index.now.history.texts number) }
{
    match index.history().texts().get(number as usize) {
        None => Ok(Seq::new(alloc)),
        Some(text) => match read_text(alloc, text) {
            Ok(name) => Ok(name),
            Err(TextFault::BadText { .. }) => Ok(Seq::new(alloc)),
            Err(TextFault::Memory) => Err(Memory),
        },
    }
}

fn state_at(alloc: Global, index: &HistoryIndex, end: End) -> Result<Option<State>, Memory>
    ensures { IfOk result (λ state. state ≡ says_end index.now.history.texts end) }
{
    match end {
        End::Passed => Ok(None),
        End::Returned => Ok(Some(State::Killed(Cause::Returned))),
        End::Thrown(number) => {
            let name = name_read(alloc, index, number)?;
            Ok(Some(State::Killed(Cause::Thrown(name))))
        }
        End::TimedOut => Ok(Some(State::TimedOut)),
        End::MemoryOut => Ok(Some(State::MemoryError)),
    }
}

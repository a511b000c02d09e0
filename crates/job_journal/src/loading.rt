//! What a keeper keeps, read and completed.

ghost use Rattle.std.specs.Prelude.{◌≡◌, IfOk, IfErr, IfSome, Ok};
ghost use Rattle.record_rules.specs.declared.profile_number.TheConstants.{PROFILE_NUMBER};
ghost use Rattle.run_journal.specs.Reading.{journal_in};
ghost use Rattle.run_journal.specs.Calls.{parts_of};
ghost use Rattle.job_journal.specs.Opening.{OpensText, FailsToOpen};

use crate::numbers::ClassNumbers;
use crate::opening::JournalFault;
use crate::pieces::complete;
use class_model::Seq;
use history_rules::HistoryFault;
use mt_edge::{EdgeFault, Keeper};
use record_rules::{PROFILE_NUMBER, RunRecord};
use run_journal::{JournalRead, Runs, read_journal};
use std::alloc::Global;

// What a keeper keeps, read.
fn load_text<K: Keeper>(alloc: Global, keeper: &mut K) -> Result<JournalRead, JournalFault>
    ensures read { IfOk result (λ read. IfSome (K.kept keeper.old)
        (λ bytes. journal_in PROFILE_NUMBER bytes ≡ Ok (parts_of read))) }
    ensures same { K.kept keeper.new ≡ K.kept keeper.old }
    ensures other { K.writing keeper.new ≡ K.writing keeper.old }
    ensures fault { IfErr result (λ fault. FailsToOpen PROFILE_NUMBER fault
        (K.reading keeper.old) (K.reading keeper.new) (K.writing keeper.old)
        (K.writing keeper.new) (K.kept keeper.old) (K.kept keeper.new)) }
{
    let bytes = match keeper.load() {
        Ok(bytes) => bytes,
        Err(EdgeFault::Failed) => return Err(JournalFault::Load),
        Err(EdgeFault::Memory) => return Err(JournalFault::Memory),
    };
    match read_journal(alloc, PROFILE_NUMBER, bytes.as_slice()) {
        Ok(read) => Ok(read),
        Err(HistoryFault::HistoryBad { at }) => Err(JournalFault::HistoryBad { at }),
        Err(HistoryFault::TooLong { .. }) => unreachable!(),
        Err(HistoryFault::Memory) => Err(JournalFault::Memory),
    }
}

/// The classes and the records of what a keeper keeps, once it is complete and durable.
pub fn open_text<K: Keeper>(
    alloc: Global,
    keeper: &mut K,
) -> Result<(ClassNumbers, Seq<RunRecord>), JournalFault>
    ensures opened { IfOk result (λ x. OpensText PROFILE_NUMBER (K.kept keeper.old)
        (K.kept keeper.new) (K.durable keeper.new) x.0 x.1) }
    ensures fault { IfErr result (λ fault. FailsToOpen PROFILE_NUMBER fault
        (K.reading keeper.old) (K.reading keeper.new) (K.writing keeper.old)
        (K.writing keeper.new) (K.kept keeper.old) (K.kept keeper.new)) }
{
    let read = load_text(alloc, keeper)?;
    let JournalRead { runs, closing } = read;
    let Runs { classes, records } = runs;
    let Ok(numbers) = ClassNumbers::of(alloc, classes) else {
        return Err(JournalFault::Memory);
    };
    match complete(keeper, closing.as_slice()) {
        Ok(()) => Ok((numbers, records)),
        Err(EdgeFault::Failed) => Err(JournalFault::Write),
        Err(EdgeFault::Memory) => Err(JournalFault::Memory),
    }
}

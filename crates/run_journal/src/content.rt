//! What a good entry of a journal says.

ghost use Rattle.std.specs.Prelude.{◌≡◌};
ghost use Rattle.history_rules.specs.Items.{ReadsFile};
ghost use Rattle.run_journal.specs.Contents.{class_file_at, is_kept};
ghost use Rattle.run_journal.specs.Calls.{ReadsItem, TellsItem, AddsItem, known_in};

use crate::record::read_record;
use crate::runs::Runs;
use class_model::{Bytes, Outcome, SharedBytes};
use history_rules::HistoryFault;
use mt_bytes::Cursor;
use record_rules::RunRecord;
use std::alloc::Global;

/// What one says: a class file, or a record as a history of this version has it.
#[derive(Drop)]
pub enum Found {
    ClassFile(SharedBytes),
    Run(u16, RunRecord),
}

#[tactic(auto, unfolding(crate::specs::Contents::class_file_at))]
fn read_class(alloc: Global, cur: &mut Cursor) -> Result<SharedBytes, HistoryFault>
    ensures { ReadsFile class_file_at cur.old cur.new result }
{
    let len = cur.u4()?;
    let bytes = cur.take(len)?;
    let class = Bytes::from_slice(alloc, bytes)?;
    let class = SharedBytes::new(alloc, class)?;
    Ok(class)
}

#[tactic(auto, unfolding(crate::specs::Contents::item_at, crate::specs::Contents::class_item_at, crate::specs::Contents::run_item_at))]
fn read_found(
    alloc: Global,
    classes: &[SharedBytes],
    cur: &mut Cursor,
) -> Result<Found, HistoryFault>
    ensures { ReadsItem classes.now cur.old cur.new result }
{
    let at = cur.at();
    let kind = cur.u1()?;
    if kind == 1 {
        let class = read_class(alloc, cur)?;
        return Ok(Found::ClassFile(class));
    }
    if kind == 2 {
        let entry = read_record(alloc, 1, classes, cur)?;
        return Ok(Found::Run(1, entry));
    }
    if kind == 3 {
        let entry = read_record(alloc, 2, classes, cur)?;
        return Ok(Found::Run(2, entry));
    }
    Err(HistoryFault::HistoryBad { at })
}

// What the whole content says.
fn read_item(alloc: Global, classes: &[SharedBytes], content: &[u8]) -> Result<Found, HistoryFault>
    ensures { TellsItem classes.now content.now result }
{
    let mut cur = Cursor::new(content, 0);
    let found = read_found(alloc, classes, &mut cur)?;
    if cur.left() != 0 {
        return Err(HistoryFault::HistoryBad { at: cur.at() });
    }
    Ok(found)
}

// The first version doesn't tell why a test failed.
fn is_kept(version: u16, entry: &RunRecord) -> bool
    ensures { result ≡ is_kept version entry.now }
{
    match &entry.outcome {
        Outcome::Failed(_) => version != 1,
        Outcome::Passed => true,
        Outcome::TimedOut => true,
        Outcome::MemoryOut => true,
    }
}

/// Adds what a content says. One that says nothing is told at the place of its entry's mark.
pub fn add_item(alloc: Global, content: &[u8], at: u64, runs: &mut Runs) -> Result<(), HistoryFault>
    ensures { AddsItem content.now at (known_in runs.old) (known_in runs.new) result }
{
    match read_item(alloc, runs.classes.as_slice(), content) {
        Ok(Found::ClassFile(class)) => {
            runs.classes.push(class)?;
            Ok(())
        }
        Ok(Found::Run(version, entry)) => {
            if is_kept(version, &entry) {
                runs.records.push(entry)?;
            }
            Ok(())
        }
        Err(HistoryFault::Memory) => Err(HistoryFault::Memory),
        Err(HistoryFault::HistoryBad { .. }) => Err(HistoryFault::HistoryBad { at }),
        Err(HistoryFault::TooLong { .. }) => Err(HistoryFault::HistoryBad { at }),
    }
}

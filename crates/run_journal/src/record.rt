//! A record of a run, as a journal has it.

ghost use Rattle.std.specs.Prelude.{length};
ghost use Rattle.history_rules.specs.Items.{ReadsFile};
ghost use Rattle.history_rules.specs.Reading.{record_at};

use crate::entries::{read_entries, read_pairs};
use crate::outcome::{are_steps, read_name, read_outcome};
use class_model::SharedBytes;
use history_rules::HistoryFault;
use mt_bytes::Cursor;
use record_rules::RunRecord;
use std::alloc::Global;

/// A record of a history of this version, under these classes.
#[tactic(auto, unfolding(history_rules::specs::Reading::record_at))]
pub fn read_record(
    alloc: Global,
    version: u16,
    classes: &[SharedBytes],
    cur: &mut Cursor,
) -> Result<RunRecord, HistoryFault>
    ensures { ReadsFile (record_at version classes.now (length classes.now)) cur.old cur.new
        result }
{
    let test_class = read_name(alloc, cur)?;
    let test_method = read_name(alloc, cur)?;
    let heap = cur.u4()?;
    let depth = cur.u4()?;
    let limit = cur.u8()?;
    let outcome = read_outcome(alloc, version, cur)?;
    let at = cur.at();
    let steps = cur.u8()?;
    if !are_steps(limit, &outcome, steps) {
        return Err(HistoryFault::HistoryBad { at });
    }
    let consulted = read_entries(alloc, classes, cur)?;
    let reached = read_pairs(alloc, consulted.as_slice(), cur)?;
    Ok(RunRecord {
        test_class,
        test_method,
        heap,
        depth,
        limit,
        outcome,
        steps,
        consulted,
        reached,
    })
}

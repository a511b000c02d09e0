//! One record of a history.

ghost use Rattle.std.specs.Prelude.{◌<◌, [], map, IfOk};
ghost use Rattle.history_rules.specs.Laws.{AreDifferent};
ghost use Rattle.history_rules.specs.Reading.{record_at};
ghost use Rattle.history_file.specs.Texts.{AreTexts, HasRoom, Marked};
ghost use Rattle.history_file.specs.Reading.{ReadsUnder, record_under, RecordTold};

use crate::end::{are_steps, read_end};
use crate::entries::{read_entries, read_pairs};
use crate::names::read_name;
use crate::row::Row;
use crate::texts::Texts;
use history_rules::HistoryFault;
use mt_bytes::Cursor;
use std::alloc::Global;

/// A record under these classes, of which so many count as used. It is told from others by its
/// stamp, which grows from one to the next.
#[tactic(auto, unfolding(history_rules::specs::Reading::record_at), using(crate::proofs::Room::number_room, crate::proofs::Room::pairs_room))]
pub fn read_record<'a>(
    alloc: Global,
    version: u16,
    classes: &[&'a [u8]],
    used: &mut u32,
    stamp: u32,
    texts: &mut Texts<'a>,
    cur: &mut Cursor<'a>,
) -> Result<Row, HistoryFault>
    requires known { AreTexts texts.old }
    requires room { HasRoom texts.old cur.old }
    requires stamp { 0 < stamp }
    requires none { Marked texts.old stamp [] }
    requires classes { AreDifferent (map (λ s. s.now) classes.now) }
    ensures read { ReadsUnder (record_under (map (λ s. s.now) classes.now))
        (record_at version (map (λ s. s.now) classes.now) used.old) texts.new cur.old cur.new
        result }
    ensures told { IfOk result (λ r. RecordTold (map (λ s. s.now) classes.now) used.old used.new
        stamp texts.old texts.new r) }
    ensures room { IfOk result (λ _. HasRoom texts.new cur.new) }
{
    let test_class = read_name(alloc, texts, cur)?;
    let test_method = read_name(alloc, texts, cur)?;
    let heap = cur.u4()?;
    let depth = cur.u4()?;
    let limit = cur.u8()?;
    let end = read_end(alloc, version, texts, cur)?;
    let at = cur.at();
    let steps = cur.u8()?;
    if !are_steps(limit, end, steps) {
        return Err(HistoryFault::HistoryBad { at });
    }
    let consulted = read_entries(alloc, classes, used, stamp, texts, cur)?;
    let reached = read_pairs(alloc, consulted.as_slice(), cur)?;
    Ok(Row {
        test_class,
        test_method,
        heap,
        depth,
        limit,
        end,
        steps,
        consulted,
        reached,
    })
}

//! The records of a history, one after the other.

ghost use Rattle.std.specs.Prelude.{◌≡◌, ◌<◌, ◌≤◌, ◌-◌, ◌+◌, ◌^◌, ℕ, List, [], length, map, take, drop, filter, not, ◌==◌, if◌then◌else◌, MatchResult};
ghost use Rattle.codec_rules.specs.Meets.{Fails};
ghost use Rattle.history_rules.specs.declared.fault.HistoryFault.TheVariants.{Memory};
ghost use Rattle.history_rules.specs.Items.{counted_by, many_by};
ghost use Rattle.history_rules.specs.Histories.{Past, next_record_at, with_record, no_past, is_failed};
ghost use Rattle.history_rules.specs.Laws.{AreDifferent};
ghost use Rattle.history_file.specs.Rows.{outcome_of};
ghost use Rattle.history_file.specs.Texts.{AreTexts, HasRoom, Marked};
ghost use Rattle.history_file.specs.Files.{IsIn, HasFound, NextFound, ReadsFound};

use crate::end::is_failed;
use crate::record::read_record;
use crate::row::Row;
use crate::slices::Slices;
use crate::texts::Texts;
use class_model::Seq;
use history_rules::HistoryFault;
use mt_bytes::Cursor;
use std::alloc::Global;

/// What was read of records: their names, how many classes they use, their bytes, and themselves.
#[derive(Drop)]
pub struct Found<'a> {
    pub texts: Texts<'a>,
    pub used: u32,
    pub seen: Slices<'a>,
    pub rows: Seq<Row>,
}

// The bytes of a file from one place to another.
fn between<'a>(file: &'a [u8], from: u64, to: u64) -> &'a [u8]
    requires order { from ≤ to }
    requires within { to ≤ length file.now }
    ensures { result.now ≡ drop from (take to file.entry.now) }
{
    let (front, _behind) = file.split_at(to as usize);
    let (_before, slice) = front.split_at(from as usize);
    slice
}

// One record more. One that is equal to another before it is told at its first byte.
fn read_next<'a>(
    alloc: Global,
    version: u16,
    classes: &[&'a [u8]],
    stamp: u32,
    file: &'a [u8],
    found: &mut Found<'a>,
    cur: &mut Cursor<'a>,
) -> Result<(), HistoryFault>
    requires classes { AreDifferent (map (λ s. s.now) classes.now) }
    requires stamp { 0 < stamp }
    requires place { IsIn file.now cur.old }
    requires texts { AreTexts found.old.texts }
    requires room { HasRoom found.old.texts cur.old }
    requires none { Marked found.old.texts stamp [] }
    ensures { (past : Past) (before : ℕ) →
        HasFound version (map (λ s. s.now) classes.now) before past found.old →
        MatchResult result
        (λ _. NextFound version (map (λ s. s.now) classes.now) stamp past found.old found.new
        file.entry.now cur.old cur.new)
        (λ fault. Fails Memory fault
        (next_record_at version (map (λ s. s.now) classes.now) past cur.old)) }
{
    let from = cur.at();
    let row = read_record(
        alloc,
        version,
        classes,
        &mut found.used,
        stamp,
        &mut found.texts,
        cur,
    )?;
    let record = between(file, from, cur.at());
    let fresh = found.seen.insert(record)?;
    if !fresh {
        return Err(HistoryFault::HistoryBad { at: from });
    }
    found.rows.push(row)?;
    Ok(())
}

// How many records are said to come, but no more than the bytes that are left can spell: each has
// 37 at least.
fn room_of(count: u32, left: u64) -> usize {
    let count = u64::from(count);
    let most = left / 37;
    if count < most {
        count as usize
    } else {
        most as usize
    }
}

// No record, with room for so many.
fn empty_rows(alloc: Global, count: u32, cur: &Cursor) -> Result<Seq<Row>, HistoryFault>
    ensures { MatchResult result (λ rows. rows ≡ []) (λ fault. fault ≡ Memory) }
{
    let rows = Seq::with_capacity(alloc, room_of(count, cur.left()))?;
    Ok(rows)
}

fn read_counted_records<'a>(
    alloc: Global,
    version: u16,
    classes: &[&'a [u8]],
    count: u32,
    file: &'a [u8],
    cur: &mut Cursor<'a>,
) -> Result<Found<'a>, HistoryFault>
    requires classes { AreDifferent (map (λ s. s.now) classes.now) }
    requires place { IsIn file.now cur.old }
    requires short { cur.old.at + length cur.old.bytes < 2 ^ 32 }
    ensures { ReadsFound version (map (λ s. s.now) classes.now) (many_by
        (next_record_at version (map (λ s. s.now) classes.now))
        (with_record (map (λ s. s.now) classes.now)) no_past count) cur.old cur.new result }
{
    let rows = empty_rows(alloc, count, cur)?;
    let mut found = Found {
        texts: Texts::new(alloc),
        used: 0,
        seen: Slices::new(alloc),
        rows,
    };
    for i in 0..count {
        read_next(alloc, version, classes, i + 1, file, &mut found, cur)?;
    }
    Ok(found)
}

/// The records under these classes. The cursor stands in the file.
#[tactic(auto, using(crate::proofs::Room::number_in, crate::proofs::Room::number_short))]
pub fn read_records<'a>(
    alloc: Global,
    version: u16,
    classes: &[&'a [u8]],
    file: &'a [u8],
    cur: &mut Cursor<'a>,
) -> Result<Found<'a>, HistoryFault>
    requires classes { AreDifferent (map (λ s. s.now) classes.now) }
    requires place { IsIn file.now cur.old }
    requires short { cur.old.at + length cur.old.bytes < 2 ^ 32 }
    ensures { ReadsFound version (map (λ s. s.now) classes.now) (counted_by
        (next_record_at version (map (λ s. s.now) classes.now))
        (with_record (map (λ s. s.now) classes.now)) no_past) cur.old cur.new result }
{
    let count = cur.u4()?;
    let found = read_counted_records(alloc, version, classes, count, file, cur)?;
    Ok(found)
}

/// The records whose tests didn't fail.
fn without_failed(rows: Seq<Row>) -> Seq<Row>
    ensures { (texts : List (List ℕ)) →
        result ≡ filter (λ r. not (is_failed (outcome_of texts r.end))) rows }
{
    let mut rows = rows.into_vec();
    rows.retain(|row| !is_failed(row.end));
    Seq::from_vec(rows)
}

/// The records of a history of this version that have a cause where they failed.
pub fn kept_rows(version: u16, rows: Seq<Row>) -> Seq<Row>
    ensures { (texts : List (List ℕ)) → result ≡ (if version == 1
        then filter (λ r. not (is_failed (outcome_of texts r.end))) rows else rows) }
{
    if version == 1 {
        without_failed(rows)
    } else {
        rows
    }
}

//! A history, written.

ghost use Rattle.std.specs.Prelude.{◌≡◌, ◌<◌, ◌++◌, ◌^◌, length, map, All, OnOk};
ghost use Rattle.std.specs.List.{flat_map};
ghost use Rattle.class_model.specs.declared.outcome.Cause.TheVariants.{Returned};
ghost use Rattle.class_model.specs.declared.outcome.Outcome.TheVariants.{Failed};
ghost use Rattle.history_rules.specs.Items.{text_bytes, counted_bytes};
ghost use Rattle.history_rules.specs.Classes.{class_bytes};
ghost use Rattle.history_rules.specs.Entries.{entry_bytes, pair_bytes};
ghost use Rattle.history_rules.specs.Spelling.{outcome_bytes, record_bytes, IsOutcome};
ghost use Rattle.history_rules.specs.Histories.{contents_bytes};
ghost use Rattle.history_rules.specs.Laws.{AreWritable};
ghost use Rattle.history_file.specs.declared.row.End.TheVariants as end;
ghost use Rattle.history_file.specs.Rows.{name_of, outcome_of, entry_of, record_of, records_of, IsEnd};
ghost use Rattle.history_file.specs.Reading.{entries_of};
ghost use Rattle.history_file.specs.Writing.{AreNames, IsOrder, classes_of, used_by, IsTextNumber};
ghost use Rattle.history_file.specs.Writing.{IsWrittenEntry, IsWrittenRow, AreShort, records_in};
ghost use Rattle.history_file.specs.Writing.{GivesText, contents_under};

use crate::history::History;
use crate::lengths::history_len;
use crate::order::Order;
use crate::row::{End, Entry, Row};
use class_model::{Bytes, Memory, Seq};
use history_rules::HistoryFault;
use mt_bytes::{put_u1, put_u2, put_u4, put_u8};
use std::alloc::Global;

// The most bytes that a history has: 512 MiB.
const MOST: u64 = 536_870_912;

fn put_text(texts: &[&[u8]], name: u32, out: &mut Bytes) -> Result<(), Memory>
    requires names { AreNames (map (λ s. s.now) texts.now) }
    requires text { IsTextNumber (map (λ s. s.now) texts.now) name }
    ensures { OnOk result (out.new
        ≡ out.old ++ text_bytes (name_of (map (λ s. s.now) texts.now) name)) }
{
    let text = texts[name as usize];
    put_u2(out, text.len() as u16)?;
    out.extend_from_slice(text)?;
    Ok(())
}

// Why a test failed: an exception of the class of this name.
fn put_thrown(texts: &[&[u8]], name: u32, out: &mut Bytes) -> Result<(), Memory>
    requires names { AreNames (map (λ s. s.now) texts.now) }
    requires there { IsEnd (length (map (λ s. s.now) texts.now)) (end.Thrown name) }
    requires form { IsOutcome 2 (outcome_of (map (λ s. s.now) texts.now) (end.Thrown name)) }
    ensures { OnOk result (out.new
        ≡ out.old ++ outcome_bytes 2 (outcome_of (map (λ s. s.now) texts.now) (end.Thrown name))) }
{
    put_u1(out, 1)?;
    put_u1(out, 1)?;
    put_text(texts, name, out)?;
    Ok(())
}

fn put_returned(out: &mut Bytes) -> Result<(), Memory>
    ensures { OnOk result (out.new ≡ out.old ++ outcome_bytes 2 (Failed Returned)) }
{
    put_u1(out, 1)?;
    put_u1(out, 0)?;
    Ok(())
}

fn put_end(texts: &[&[u8]], end: End, out: &mut Bytes) -> Result<(), Memory>
    requires names { AreNames (map (λ s. s.now) texts.now) }
    requires there { IsEnd (length (map (λ s. s.now) texts.now)) end }
    requires form { IsOutcome 2 (outcome_of (map (λ s. s.now) texts.now) end) }
    ensures { OnOk result (out.new
        ≡ out.old ++ outcome_bytes 2 (outcome_of (map (λ s. s.now) texts.now) end)) }
{
    match end {
        End::Passed => put_u1(out, 0),
        End::Returned => put_returned(out),
        End::Thrown(name) => put_thrown(texts, name, out),
        End::TimedOut => put_u1(out, 2),
        End::MemoryOut => put_u1(out, 3),
    }
}

fn put_entry(texts: &[&[u8]], order: &Order, entry: &Entry, out: &mut Bytes) -> Result<(), Memory>
    requires names { AreNames (map (λ s. s.now) texts.now) }
    requires order { IsOrder order.now }
    requires entry { IsWrittenEntry (map (λ s. s.now) texts.now) order.now entry.now }
    ensures { OnOk result (out.new ≡ out.old ++ entry_bytes (used_by order.now)
        (entry_of (map (λ s. s.now) texts.now) (classes_of order.now) entry.now)) }
{
    put_text(texts, entry.name, out)?;
    put_u4(out, order.number(entry.class))?;
    Ok(())
}

fn put_each_entry(
    texts: &[&[u8]],
    order: &Order,
    entries: &[Entry],
    out: &mut Bytes,
) -> Result<(), Memory>
    requires names { AreNames (map (λ s. s.now) texts.now) }
    requires order { IsOrder order.now }
    requires entries { All (IsWrittenEntry (map (λ s. s.now) texts.now) order.now) entries.now }
    ensures { OnOk result (out.new ≡ out.old ++ flat_map (entry_bytes (used_by order.now))
        (entries_of (classes_of order.now) (map (λ s. s.now) texts.now) entries.now)) }
{
    for entry in entries {
        put_entry(texts, order, entry, out)?;
    }
    Ok(())
}

#[tactic(auto, using(crate::proofs::Spelled::counted_written))]
fn put_entries(
    texts: &[&[u8]],
    order: &Order,
    entries: &[Entry],
    out: &mut Bytes,
) -> Result<(), Memory>
    requires names { AreNames (map (λ s. s.now) texts.now) }
    requires order { IsOrder order.now }
    requires few { length entries.now < 2 ^ 32 }
    requires entries { All (IsWrittenEntry (map (λ s. s.now) texts.now) order.now) entries.now }
    ensures { OnOk result (out.new ≡ out.old ++ counted_bytes (entry_bytes (used_by order.now))
        (entries_of (classes_of order.now) (map (λ s. s.now) texts.now) entries.now)) }
{
    put_u4(out, entries.len() as u32)?;
    put_each_entry(texts, order, entries, out)?;
    Ok(())
}

fn put_each_pair(pairs: &[(u32, u16)], out: &mut Bytes) -> Result<(), Memory>
    ensures { OnOk result (out.new ≡ out.old ++ flat_map pair_bytes pairs.now) }
{
    for pair in pairs {
        put_u4(out, pair.0)?;
        put_u2(out, pair.1)?;
    }
    Ok(())
}

fn put_pairs(pairs: &[(u32, u16)], out: &mut Bytes) -> Result<(), Memory>
    requires { length pairs.now < 2 ^ 32 }
    ensures { OnOk result (out.new ≡ out.old ++ counted_bytes pair_bytes pairs.now) }
{
    put_u4(out, pairs.len() as u32)?;
    put_each_pair(pairs, out)?;
    Ok(())
}

fn put_row(texts: &[&[u8]], order: &Order, row: &Row, out: &mut Bytes) -> Result<(), Memory>
    requires names { AreNames (map (λ s. s.now) texts.now) }
    requires order { IsOrder order.now }
    requires row { IsWrittenRow (map (λ s. s.now) texts.now) order.now row.now }
    ensures { OnOk result (out.new ≡ out.old ++ record_bytes 2 (used_by order.now)
        (record_of (map (λ s. s.now) texts.now) (classes_of order.now) row.now)) }
{
    put_text(texts, row.test_class, out)?;
    put_text(texts, row.test_method, out)?;
    put_u4(out, row.heap)?;
    put_u4(out, row.depth)?;
    put_u8(out, row.limit)?;
    put_end(texts, row.end, out)?;
    put_u8(out, row.steps)?;
    put_entries(texts, order, row.consulted.as_slice(), out)?;
    put_pairs(row.reached.as_slice(), out)?;
    Ok(())
}

fn put_each_row(texts: &[&[u8]], order: &Order, rows: &[Row], out: &mut Bytes) -> Result<(), Memory>
    requires names { AreNames (map (λ s. s.now) texts.now) }
    requires order { IsOrder order.now }
    requires rows { All (IsWrittenRow (map (λ s. s.now) texts.now) order.now) rows.now }
    ensures { OnOk result (out.new ≡ out.old ++ flat_map (record_bytes 2 (used_by order.now))
        (records_in (map (λ s. s.now) texts.now) (classes_of order.now) rows.now)) }
{
    for row in rows {
        put_row(texts, order, row, out)?;
    }
    Ok(())
}

#[tactic(auto, using(crate::proofs::Spelled::counted_written))]
fn put_rows(texts: &[&[u8]], order: &Order, rows: &[Row], out: &mut Bytes) -> Result<(), Memory>
    requires names { AreNames (map (λ s. s.now) texts.now) }
    requires order { IsOrder order.now }
    requires few { length rows.now < 2 ^ 32 }
    requires rows { All (IsWrittenRow (map (λ s. s.now) texts.now) order.now) rows.now }
    ensures { OnOk result (out.new ≡ out.old ++ counted_bytes (record_bytes 2 (used_by order.now))
        (records_in (map (λ s. s.now) texts.now) (classes_of order.now) rows.now)) }
{
    put_u4(out, rows.len() as u32)?;
    put_each_row(texts, order, rows, out)?;
    Ok(())
}

fn put_class(class: &[u8], out: &mut Bytes) -> Result<(), Memory>
    requires { length class.now < 2 ^ 32 }
    ensures { OnOk result (out.new ≡ out.old ++ class_bytes class.now) }
{
    put_u4(out, class.len() as u32)?;
    out.extend_from_slice(class)?;
    Ok(())
}

fn put_each_class(classes: &[&[u8]], out: &mut Bytes) -> Result<(), Memory>
    requires { AreShort (map (λ s. s.now) classes.now) }
    ensures { OnOk result (out.new
        ≡ out.old ++ flat_map class_bytes (map (λ s. s.now) classes.now)) }
{
    for class in classes {
        put_class(class, out)?;
    }
    Ok(())
}

#[tactic(auto, using(crate::proofs::Spelled::counted_written))]
fn put_classes(classes: &[&[u8]], out: &mut Bytes) -> Result<(), Memory>
    requires few { length (map (λ s. s.now) classes.now) < 2 ^ 32 }
    requires short { AreShort (map (λ s. s.now) classes.now) }
    ensures { OnOk result (out.new
        ≡ out.old ++ counted_bytes class_bytes (map (λ s. s.now) classes.now)) }
{
    put_u4(out, classes.len() as u32)?;
    put_each_class(classes, out)?;
    Ok(())
}

// The whole text, in the version that is written.
fn put_history(
    profile: u16,
    texts: &[&[u8]],
    order: &Order,
    rows: &[Row],
    out: &mut Bytes,
) -> Result<(), Memory>
    requires names { AreNames (map (λ s. s.now) texts.now) }
    requires order { IsOrder order.now }
    requires few { length rows.now < 2 ^ 32 }
    requires short { AreShort (used_by order.now) }
    requires rows { All (IsWrittenRow (map (λ s. s.now) texts.now) order.now) rows.now }
    ensures { OnOk result (out.new ≡ out.old ++ contents_bytes (contents_under profile
        (used_by order.now)
        (records_in (map (λ s. s.now) texts.now) (classes_of order.now) rows.now))) }
{
    put_u4(out, 0x4d54_4849)?;
    put_u2(out, 2)?;
    put_u2(out, profile)?;
    put_classes(order.used(), out)?;
    put_rows(texts, order, rows, out)?;
    Ok(())
}

/// The one text of these records, of this profile number: classes by their first use by the
/// records, and none that they don't use. It is too long exactly past 536,870,912 bytes.
pub fn write_history(alloc: Global, profile: u16, history: &History) -> Result<Bytes, HistoryFault>
    requires { AreWritable (records_of history.now) }
    ensures { GivesText profile (records_of history.now) result }
{
    let (texts, classes, rows) = (history.texts(), history.classes(), history.rows());
    let order = Order::of(alloc, classes, rows)?;
    let len = history_len(texts, order.used(), rows);
    if len > MOST {
        return Err(HistoryFault::TooLong { len });
    }
    let mut out = Seq::with_capacity(alloc, len as usize)?;
    put_history(profile, texts, &order, rows, &mut out)?;
    Ok(out)
}

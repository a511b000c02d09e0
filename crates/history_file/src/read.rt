//! A history, read from its bytes.

ghost use Rattle.std.specs.Prelude.{◌≡◌, ◌≤◌, ◌==◌, length, map, take, nat_lt, Ok, Err, IfOk, MatchResult};
ghost use Rattle.codec_rules.specs.Input.{IsBytes};
ghost use Rattle.codec_rules.specs.Meets.{Gives};
ghost use Rattle.history_rules.specs.declared.fault.HistoryFault.TheVariants.{Memory};
ghost use Rattle.history_rules.specs.Histories.{most, read_as, records_under, whole_of};
ghost use Rattle.history_rules.specs.Laws.{AreWritable};
ghost use Rattle.history_file.specs.Rows.{records_of};
ghost use Rattle.history_file.specs.Files.{AreParts, ReadsParts, contents_in};

use crate::classes::read_classes;
use crate::head::{Head, read_head};
use crate::history::History;
use crate::lengths::classes_len;
use crate::records::{Found, kept_rows, read_records};
use class_model::Seq;
use history_rules::HistoryFault;
use mt_bytes::Cursor;
use std::alloc::Global;

// The most bytes that a history has: 512 MiB.
const MOST: usize = 536_870_912;

/// What was read of a history.
#[derive(Drop)]
pub struct Parts<'a> {
    head: Head,
    classes: Seq<&'a [u8]>,
    found: Found<'a>,
}

fn read_parts<'a>(
    alloc: Global,
    bytes: &'a [u8],
    cur: &mut Cursor<'a>,
) -> Result<Parts<'a>, HistoryFault>
    requires place { cur.old ≡ record { at = 0; bytes = bytes.now } }
    requires short { length bytes.now ≤ most }
    ensures { ReadsParts cur.old cur.new result }
{
    let head = read_head(cur)?;
    let classes = read_classes(alloc, cur)?;
    let found = read_records(alloc, head.version, classes.as_slice(), bytes, cur)?;
    Ok(Parts {
        head,
        classes,
        found,
    })
}

fn is_over(cur: &Cursor) -> bool
    ensures { result ≡ (length cur.now.bytes == 0) }
{
    cur.left() == 0
}

// Whether the records use each class.
fn is_used_up(parts: &Parts) -> bool
    ensures { result ≡ (parts.now.found.used == length (map (λ s. s.now) parts.now.classes)) }
{
    parts.found.used as usize == parts.classes.len()
}

// The classes that the records use.
fn used_classes<'b, 'a>(parts: &'b Parts<'a>) -> &'b [&'a [u8]]
    requires { parts.now.found.used ≤ length (map (λ s. s.now) parts.now.classes) }
    ensures { map (λ s. s.now) result.now
        ≡ take parts.now.found.used (map (λ s. s.now) parts.now.classes) }
{
    let (front, _behind) = parts.classes.as_slice().split_at(parts.found.used as usize);
    front
}

// Nothing may stand behind the last record, and then no class may be unused: it is told at its
// length, which is behind those that are used.
fn check_end(parts: &Parts, cur: &Cursor) -> Result<(), HistoryFault>
    requires { AreParts parts.now }
    ensures { MatchResult result
        (λ _. whole_of (contents_in parts.now, cur.now) ≡ Ok (contents_in parts.now))
        (λ fault. whole_of (contents_in parts.now, cur.now) ≡ Err fault) }
{
    if !is_over(cur) {
        return Err(HistoryFault::HistoryBad { at: cur.at() });
    }
    if !is_used_up(parts) {
        let at = classes_len(used_classes(parts)).saturating_add(12);
        return Err(HistoryFault::HistoryBad { at });
    }
    Ok(())
}

fn is_of(head: Head, profile: u16) -> bool
    ensures { result ≡ (head.profile == profile) }
{
    head.profile == profile
}

// The records for a tool of this profile number.
fn history_of<'a>(alloc: Global, profile: u16, parts: Parts<'a>) -> History<'a>
    requires { AreParts parts }
    ensures { records_of result ≡ records_under profile (contents_in parts.entry) }
{
    let Parts {
        head,
        classes,
        found,
    } = parts;
    if !is_of(head, profile) {
        return History::new(alloc);
    }
    let Found { texts, rows, .. } = found;
    let rows = kept_rows(head.version, rows);
    History::of_parts(texts.into_texts(), classes, rows)
}

fn is_too_long(bytes: &[u8]) -> bool
    ensures long { result ≡ nat_lt most (length bytes.now) }
    ensures known { IsBytes bytes.now }
{
    let _bytes = bytes;
    bytes.len() > MOST
}

/// The records of these bytes for a tool of this profile number: in version 1 without those that
/// failed, and none where the history is of another number. Else the first fault with its place.
pub fn read_history<'a>(
    alloc: Global,
    profile: u16,
    bytes: &'a [u8],
) -> Result<History<'a>, HistoryFault>
    ensures read { Gives Memory records_of (read_as profile bytes.entry.now) result }
    ensures form { IfOk result (λ h. AreWritable (records_of h)) }
{
    if is_too_long(bytes) {
        return Err(HistoryFault::HistoryBad { at: MOST as u64 });
    }
    let mut cur = Cursor::new(bytes, 0);
    let parts = read_parts(alloc, bytes, &mut cur)?;
    check_end(&parts, &cur)?;
    let history = history_of(alloc, profile, parts);
    Ok(history)
}

//! Whether a record matches a run, in numbers.

ghost use Rattle.std.specs.Prelude.{◌≡◌, ◌&&◌, Some, not, find};
ghost use Rattle.std.specs.List.{list_all};
ghost use Rattle.history_index.specs.Standings.{listed, standing_with};
ghost use Rattle.history_index.specs.Lookouts.{holds, is_fit, is_late, is_number};

use crate::standings::Standings;
use history_file::{End, Entry, Row};
use machine_rules::Limits;

// A number is this one.
fn is_number(number: Option<u32>, other: u32) -> bool
    ensures { result ≡ is_number number other }
{
    match number {
        Some(number) => number == other,
        None => false,
    }
}

fn is_late(end: End) -> bool
    ensures { result ≡ is_late end }
{
    matches!(end, End::TimedOut)
}

/// Limits are a record's, and its steps fit.
pub fn is_fit(limits: Limits, limit: u64, row: &Row) -> bool
    ensures { result ≡ is_fit limits limit row.now }
{
    row.heap == limits.heap
        && row.depth == limits.depth
        && if is_late(row.end) {
            row.limit == limit
        } else {
            row.steps <= limit
        }
}

fn holds(standings: &Standings, entry: Entry) -> bool
    ensures { result ≡ holds (listed standings.now) entry }
{
    is_number(standings.get(entry.name), entry.class)
}

/// The first entry that says what a program hasn't.
pub fn first_miss(standings: &Standings, consulted: &[Entry]) -> Option<Entry>
    ensures { result ≡ find (λ e. not (holds (listed standings.now) e)) consulted.now }
{
    for entry in consulted {
        if !holds(standings, *entry) {
            return Some(*entry);
        }
    }
    None
}

// The same where the program has what another entry says.
fn holds_with(standings: &Standings, other: Entry, entry: Entry) -> bool
    ensures { result ≡ holds
        (standing_with (listed standings.now) other.name (Some other.class)) entry }
{
    if entry.name == other.name {
        other.class == entry.class
    } else {
        holds(standings, entry)
    }
}

/// A program has what all entries say, if it has what one of them says.
pub fn all_hold_with(standings: &Standings, other: Entry, consulted: &[Entry]) -> bool
    ensures { result ≡ list_all
        (holds (standing_with (listed standings.now) other.name (Some other.class)))
        consulted.now }
{
    for entry in consulted {
        if !holds_with(standings, other, *entry) {
            return false;
        }
    }
    true
}

//! The records that are needed, by where they come from.

ghost use Rattle.std.specs.Prelude.{◌≡◌, ◌≤◌, ◌<◌, ◌+◌, All, MatchOption, sum_by};
ghost use Rattle.history_file.specs.Rows.{Numbered};
ghost use Rattle.new_history.specs.Needed.{IsNeeded, names_in};

use history_file::Row;
use record_rules::RunRecord;

/// The record of a run that is needed.
#[derive(Clone, Copy)]
pub enum Needed<'r> {
    /// One of the old history, under the limit of the run.
    Old { row: &'r Row, limit: u64 },
    /// One that was made.
    Made(&'r RunRecord),
}

// How many names a record may add to those of the old history, and as many classes.
fn names_in(needed: Needed) -> u64
    requires { (n : Numbered) × IsNeeded n needed }
    ensures { result ≡ names_in needed.entry }
{
    match needed {
        Needed::Old { row: _, limit: _ } => 0,
        Needed::Made(made) => made.consulted.len() as u64 + 3,
    }
}

/// What is left of this room when each of these adds names, if it suffices.
pub fn room_behind(room: u64, needed: &[Needed]) -> Option<u64>
    requires { (n : Numbered) × All (IsNeeded n) needed.now }
    ensures { MatchOption result (room < sum_by names_in needed.now)
        (λ left. left + sum_by names_in needed.now ≡ room) }
{
    let mut left = room;
    for one in needed {
        let names = names_in(*one);
        if names > left {
            return None;
        }
        left -= names;
    }
    Some(left)
}

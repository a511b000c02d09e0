//! A journal of runs: its text, what each beginning of one says, and what is appended to one while
//! runs are made.
//!
//! The definitions are in `specs/`: a further kind of entry goes to `Contents`, `content` (read) and
//! `entry` (written).
#![tactic(auto)]

ghost use Rattle.run_journal.specs.Laws.{WholeIsSpelled, ClosingIsRead, BeginningsAreRead, WrittenIsRead};

mod closing;
mod content;
mod entries;
mod entry;
mod frames;
mod outcome;
mod read;
mod record;
mod rest;
mod runs;

pub use entry::put_entry;
pub use read::{JournalRead, read_journal};
pub use runs::Runs;

/// A journal is read as whole, with what its entries say; and what is read as whole is a journal.
pub fn whole_is_spelled()
    ensures { WholeIsSpelled }
{}

/// The closing of what is read makes a whole journal of it that says the same.
pub fn closing_is_read()
    ensures { ClosingIsRead }
{}

/// Each beginning of what is read is read, and says first what the whole says.
pub fn beginnings_are_read()
    ensures { BeginningsAreRead }
{}

/// An entry that is written behind a whole journal is read.
pub fn written_is_read()
    ensures { WrittenIsRead }
{}

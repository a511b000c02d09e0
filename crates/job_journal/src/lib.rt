//! The journal of a job: what is appended to one while runs are made, so that a job that was stopped
//! goes on where it was.
//!
//! The definitions are in `specs/`: `Adding` says what a record adds to a text, `Keeping` what the
//! value under the lock keeps.
#![tactic(auto)]

ghost use Rattle.job_journal.specs.Adding.{RecordIsRead, WrittenTellsRecords, AddedIsRead};
ghost use Rattle.job_journal.specs.Keeping.{StopsLoseNothing};

mod adding;
mod journal;
mod loading;
mod locked;
mod made;
mod numbers;
mod opening;
mod pieces;
mod state;
mod tables;
mod written;

pub use journal::Journal;
pub use locked::Loaded;
pub use made::KnownRecord;
pub use opening::JournalFault;
pub use pieces::put_piece;
pub use state::JournalState;

/// A record under classes with all of its own is read as it is written.
pub fn record_is_read()
    ensures { RecordIsRead }
{}

/// Records that are written alike are equal.
pub fn written_tells_records()
    ensures { WrittenTellsRecords }
{}

/// What is added to a whole journal makes a whole one that says the record, too.
pub fn added_is_read()
    ensures { AddedIsRead }
{}

/// What a stop leaves is read, and no record is lost that was acknowledged.
pub fn stops_lose_nothing()
    ensures { StopsLoseNothing }
{}

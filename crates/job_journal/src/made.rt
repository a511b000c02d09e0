//! Records of runs that were made here.

ghost use Rattle.std.specs.Prelude.{◌≡◌, ◌↔◌, IsTrue};
ghost use Rattle.history_rules.specs.Laws.{IsFormed};
ghost use Rattle.record_rules.specs.declared.record.RunRecord.{RunRecord};

use record_rules::RunRecord;

/// A record of which something is known, as that it tells of a run that was made.
pub trait KnownRecord {
    // The record.
    ghost entry: { Self → RunRecord };

    // What is known of each such record.
    ghost holds: { RunRecord → Type 0 };

    /// The record.
    fn entry(&self) -> &RunRecord
        ensures value { result.now ≡ entry self.now }
        ensures known { holds (entry self.now) };

    /// Whether it has the form of a history. One that hasn't has no place in a journal.
    fn is_formed(&self) -> bool
        ensures { IsTrue result ↔ IsFormed (entry self.now) };
}

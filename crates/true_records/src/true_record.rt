//! A record that is true, and has the form of a history.

ghost use Rattle.std.specs.Prelude.{◌≡◌, true};
ghost use Rattle.record_rules.specs.Jobs.{with_limit};
ghost use Rattle.record_rules.specs.Matching.{fits_limit};
ghost use Rattle.true_records.specs.Truth.{IsTrueAndFormed};

use record_rules::RunRecord;
use reuse_laws::true_under_limits;
use std::marker::Model;

/// A record that is true of class files, and has the form of a history: the run that it tells of,
/// made on its own class files, gives what it says.
#[derive(Drop)]
pub struct TrueRecord {
    entry: RunRecord,
}

impl Model for TrueRecord {
    ghost use Rattle.record_rules.specs.declared.record.RunRecord.{RunRecord};
    ghost use Rattle.true_records.specs.Truth.{IsTrueAndFormed};

    ghost Value = { RunRecord };

    ghost view = { λ r. r.entry };

    ghost invariant = { λ r. IsTrueAndFormed r.entry };
}

// A record with another limit.
fn with_limit(mut entry: RunRecord, limit: u64) -> RunRecord
    ensures { result ≡ with_limit limit entry }
{
    entry.limit = limit;
    entry
}

impl TrueRecord {
    /// A record of which it is known.
    pub fn new(entry: RunRecord) -> TrueRecord
        requires { IsTrueAndFormed entry }
        ensures { result ≡ entry }
    {
        TrueRecord { entry }
    }

    /// The record.
    pub fn get(&self) -> &RunRecord
        ensures value { result.now ≡ self.now }
        ensures kept { IsTrueAndFormed self.now }
    {
        &self.entry
    }

    /// The record, handed out.
    pub fn take(self) -> RunRecord
        ensures value { result ≡ self }
        ensures kept { IsTrueAndFormed self }
    {
        let TrueRecord { entry } = self;
        entry
    }

    /// The same under another limit that it fits: that of a run which it matches.
    pub fn under(self, limit: u64) -> TrueRecord
        requires { fits_limit self limit ≡ true }
        ensures { result ≡ with_limit limit self }
    {
        true_under_limits();
        let old = self.take();
        let entry = with_limit(old, limit);
        TrueRecord::new(entry)
    }
}

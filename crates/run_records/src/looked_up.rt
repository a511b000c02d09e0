//! Old records, in which one is looked up that stands for a run.

ghost use Rattle.std.specs.Prelude.{◌≡◌};
ghost use Rattle.std.specs.Option.{option_copied};
ghost use Rattle.record_rules.specs.declared.record.RunRecord.{RunRecord};
ghost use Rattle.record_rules.specs.Matching.{first_match};
ghost use Rattle.run_records.specs.Asking.{asked};

use crate::matching::matches;
use class_model::Seq;
use class_table::{Program, Test};
use machine_rules::Limits;
use record_rules::RunRecord;

/// Records, in their order.
pub trait Lookup {
    ghost use Rattle.std.specs.Prelude.{List};

    // The records.
    ghost records: { Self → List RunRecord };

    /// The first record that matches the run of a test on a program, under these limits and for so
    /// many steps at most.
    fn lookup(&self, p: &Program, test: &Test, limits: Limits, limit: u64) -> Option<&RunRecord>
        ensures { option_copied result
            ≡ first_match (records self.now) (asked p.now test.now limits limit) };
}

// The first of these records that matches.
fn first_match<'a>(
    records: &'a [RunRecord],
    p: &Program,
    test: &Test,
    limits: Limits,
    limit: u64,
) -> Option<&'a RunRecord>
    ensures { option_copied result
        ≡ first_match records.now (asked p.now test.now limits limit) }
{
    for record in records {
        if matches(record, p, test, limits, limit) {
            return Some(record);
        }
    }
    None
}

impl Lookup for Seq<RunRecord> {
    ghost records = { λ s. s };

    fn lookup(&self, p: &Program, test: &Test, limits: Limits, limit: u64) -> Option<&RunRecord> {
        first_match(self.as_slice(), p, test, limits, limit)
    }
}

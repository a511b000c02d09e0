//! Whether a record matches a run that is asked for.

ghost use Rattle.std.specs.Prelude.{◌≡◌};
ghost use Rattle.class_table.specs.Table.{look};
ghost use Rattle.jvm_world.specs.View.{test_of};
ghost use Rattle.record_rules.specs.Matching.{fits_limit, holds_all, holds_as, is_of_test, is_timed_out, matches};
ghost use Rattle.run_records.specs.Asking.{asked, held_by};

use crate::class_files::bytes_of;
use class_model::{Name, Outcome, SharedBytes};
use class_table::{Program, Test};
use machine_rules::Limits;
use record_rules::RunRecord;

fn is_of_test(r: &RunRecord, test: &Test) -> bool
    ensures { result ≡ is_of_test r.now (test_of test.now).class (test_of test.now).method }
{
    r.test_class == test.class && r.test_method == test.method
}

fn is_timed_out(outcome: &Outcome) -> bool
    ensures { result ≡ is_timed_out outcome.now }
{
    matches!(outcome, Outcome::TimedOut)
}

// A run that ended within its own limit ended so within this one too; one that didn't is known
// under its own alone.
fn fits_limit(r: &RunRecord, limit: u64) -> bool
    ensures { result ≡ fits_limit r.now limit }
{
    if is_timed_out(&r.outcome) {
        r.limit == limit
    } else {
        r.steps <= limit
    }
}

// A name has the recorded bytes among the program's class files, or the program has no class of it.
fn holds_as(p: &Program, consulted: &(Name, Option<SharedBytes>)) -> bool
    ensures { result ≡ holds_as (look p.now) (held_by p.now) consulted.now }
{
    match &consulted.1 {
        Some(bytes) => match bytes_of(p, &consulted.0) {
            Some(held) => held.as_slice() == bytes.as_slice(),
            None => false,
        },
        None => p.find(&consulted.0).is_none(),
    }
}

/// Whether each name has its bytes among a program's class files, or is absent there as recorded.
pub fn holds_all(p: &Program, consulted: &[(Name, Option<SharedBytes>)]) -> bool
    ensures { result ≡ holds_all (look p.now) (held_by p.now) consulted.now }
{
    consulted.iter().all(|one| holds_as(p, one))
}

/// Whether a record matches the run of a test on a program, under these limits and for so many
/// steps at most: the test and the limits are its own, the steps fit, and each consulted name has
/// the recorded bytes among the program's class files, or is absent as recorded. What costs least
/// is asked first.
#[tactic(auto, unfolding(record_rules::specs::Matching::matches))]
pub fn matches(r: &RunRecord, p: &Program, test: &Test, limits: Limits, limit: u64) -> bool
    ensures { result ≡ matches r.now (asked p.now test.now limits limit) }
{
    is_of_test(r, test)
        && r.heap == limits.heap
        && r.depth == limits.depth
        && fits_limit(r, limit)
        && holds_all(p, r.consulted.as_slice())
}

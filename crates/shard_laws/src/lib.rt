//! Laws of shards and of their merge: a merge of the files of all shards answers what one call on
//! the whole suite does.
//!
//! Each law is the contract of a function that does nothing but call the laws on which it stands.
#![tactic(auto)]

ghost use Rattle.shard_laws.specs.Laws.{FilesOfAllMayBeMerged, MergesAreAsOneCall};
ghost use Rattle.shard_laws.specs.Laws.{MergesAreComplete, MergesGoByKept, ShardsRunAsAsked};

mod refusal;

use class_records::class_files_are_a_profile;
use job_answers::{
    answers_are_as_asked, answers_are_from_scratch, answers_are_of_all_tests, answers_are_true,
    costs_are_as_asked,
};
use program_laws::ordered_is_built;
pub use refusal::MergeRefusal;
use reuse_laws::{indices_may_leave_out, records_match_their_runs};
use shard_rules::whole_sets_have_no_fault;
use suite_jobs::{
    found_are_own_tests, found_tests_fit, mutants_are_reusable, originals_are_reusable,
    suites_are_safe, true_records_change_nothing, viable_mutants_are_never_stuck,
};
use type_laws::accepted_code_is_never_stuck;

/// With true old records the job of a shard answers the verdicts on its mutants by every test, and
/// leaves the records of the runs that it needs; it costs the steps of the runs that these lack.
pub fn shards_run_as_asked()
    ensures { ShardsRunAsAsked }
{
    answers_are_of_all_tests();
    answers_are_as_asked();
    costs_are_as_asked();
}

/// Where all records of the files are true, a merge that is done answers what one call with these
/// records answers, which is the answer from scratch; and it makes no run.
pub fn merges_are_as_one_call()
    ensures { MergesAreAsOneCall }
{
    accepted_code_is_never_stuck();
    ordered_is_built();
    suites_are_safe();
    found_tests_fit();
    viable_mutants_are_never_stuck();
    found_are_own_tests();
    originals_are_reusable();
    mutants_are_reusable();
    true_records_change_nothing();
    answers_are_from_scratch();
}

/// Whatever the records say, a merge that lacks nothing is done.
pub fn merges_are_complete()
    ensures { MergesAreComplete }
{}

/// A merge answers the same where of each file only the records are kept that match a run on the
/// program, or one on a viable mutant that the shard owns.
pub fn merges_go_by_kept()
    ensures { MergesGoByKept }
{
    indices_may_leave_out();
}

/// The files that calls on all shards left, each with true old records, are a set without fault, in
/// any order, and a merge of them lacks nothing.
pub fn files_of_all_may_be_merged()
    ensures { FilesOfAllMayBeMerged }
{
    accepted_code_is_never_stuck();
    ordered_is_built();
    suites_are_safe();
    found_tests_fit();
    viable_mutants_are_never_stuck();
    found_are_own_tests();
    originals_are_reusable();
    mutants_are_reusable();
    true_records_change_nothing();
    class_files_are_a_profile();
    records_match_their_runs();
    answers_are_true();
    whole_sets_have_no_fault();
}

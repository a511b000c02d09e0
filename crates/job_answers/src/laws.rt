//! Laws of what a job answers: true old records change nothing of it, and it is what running every
//! test on every mutant says.
//!
//! Each law is the contract of a function that does nothing but call the laws on which it stands.

ghost use Rattle.job_answers.specs.Laws.{AnswersAreAsAsked, AnswersAreFromScratch};
ghost use Rattle.job_answers.specs.Laws.{AnswersAreOfAllTests, AnswersAreTrue};
ghost use Rattle.job_answers.specs.Laws.{AnswersCanBeWritten, CostsAreAsAsked};
ghost use Rattle.job_answers.specs.Laws.{EachMutantHasOneVerdict, OriginalsHaveRecords};
ghost use Rattle.job_answers.specs.Laws.{RefusalsCostOriginals, TrueRecordsChangeNothing};

use class_records::class_files_are_a_profile;
use program_laws::ordered_is_built;
use record_writing::fitting_records_are_formed;
use reuse_laws::new_records_go_by_runs;
use suite_jobs::{
    detections_are_of_all_tests, found_are_own_tests, found_tests_fit, jobs_cost_as_asked,
    mutants_are_reached_alike, mutants_are_reusable, originals_are_reusable, records_say_runs,
    reuse_changes_no_answer, runs_are_own, suites_are_safe, verdicts_are_of_all_tests,
    viable_mutants_are_never_stuck,
};
use type_laws::accepted_code_is_never_stuck;

/// Where all old records are true, a job answers what it answers without any: the same refusal, or
/// the same verdicts and records.
pub fn true_records_change_nothing()
    ensures { TrueRecordsChangeNothing }
{
    reuse_changes_no_answer();
}

/// Then it is refused for its tests exactly where not all pass on the program as it is, and its
/// verdicts are those by the runs of every test on every mutant.
pub fn answers_are_of_all_tests()
    ensures { AnswersAreOfAllTests }
{
    runs_are_own();
    verdicts_are_of_all_tests();
    detections_are_of_all_tests();
}

/// Where no test fails, its new records are those of the runs that are needed, by the runs on the
/// mutants themselves: for each viable mutant those of the tests that reach its line there, up to
/// the first that detects it.
pub fn answers_are_as_asked()
    ensures { AnswersAreAsAsked }
{
    answers_are_of_all_tests();
    accepted_code_is_never_stuck();
    ordered_is_built();
    suites_are_safe();
    found_tests_fit();
    viable_mutants_are_never_stuck();
    found_are_own_tests();
    originals_are_reusable();
    mutants_are_reusable();
    suite_jobs::true_records_change_nothing();
    records_say_runs();
    mutants_are_reached_alike();
    new_records_go_by_runs();
}

/// And it costs at least and at most the steps of the runs that old records lack: of those that are
/// needed, and of those of all tests that cover a mutant.
pub fn costs_are_as_asked()
    ensures { CostsAreAsAsked }
{
    answers_are_of_all_tests();
    jobs_cost_as_asked();
}

/// A refusal costs the steps of the runs on the program as it is that old records lack.
pub fn refusals_cost_originals()
    ensures { RefusalsCostOriginals }
{}

/// All in one: where all old records are true, a job answers and costs what it does where each run
/// is made anew, but that old records save their runs' steps.
pub fn answers_are_from_scratch()
    ensures { AnswersAreFromScratch }
{
    true_records_change_nothing();
    answers_are_of_all_tests();
    answers_are_as_asked();
    costs_are_as_asked();
    refusals_cost_originals();
}

/// Each mutant has one verdict, in the order of the mutants.
pub fn each_mutant_has_one_verdict()
    ensures { EachMutantHasOneVerdict }
{}

/// The records of an answer are true where all old records are.
pub fn answers_are_true()
    ensures { AnswersAreTrue }
{
    reuse_changes_no_answer();
}

/// The run of each test on the program as it is has a record.
pub fn originals_have_records()
    ensures { OriginalsHaveRecords }
{
    accepted_code_is_never_stuck();
    ordered_is_built();
    suites_are_safe();
    found_tests_fit();
    viable_mutants_are_never_stuck();
    found_are_own_tests();
    originals_are_reusable();
    mutants_are_reusable();
}

/// The records of an answer can be written where they fit the fields of a history, whatever old
/// records say that have its form.
pub fn answers_can_be_written()
    ensures { AnswersCanBeWritten }
{
    accepted_code_is_never_stuck();
    ordered_is_built();
    suites_are_safe();
    found_tests_fit();
    viable_mutants_are_never_stuck();
    found_are_own_tests();
    originals_are_reusable();
    mutants_are_reusable();
    class_files_are_a_profile();
    fitting_records_are_formed();
}

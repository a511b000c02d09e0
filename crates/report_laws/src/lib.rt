//! Laws of the report and of the summary, over their definitions alone.
//!
//! Each law is the contract of a function that does nothing but call the laws on which it stands.
#![tactic(auto)]

ghost use Rattle.report_laws.specs.Laws.{IdsDiffer, MutantsStandOnce, TestsStandOnce, StatesAddUp, TwoFilesAreMet};

/// Each mutant with a verdict and a key stands in the report exactly once, under its key.
pub fn mutants_stand_once()
    ensures { MutantsStandOnce }
{}

/// Each test with a key stands in the report exactly once, under its key.
pub fn tests_stand_once()
    ensures { TestsStandOnce }
{}

/// Three mutants in two files, and a test, meet what these laws ask.
pub fn two_files_are_met()
    ensures { TwoFilesAreMet }
{}

/// The states that the summary counts add up to the number of mutants.
pub fn states_add_up()
    ensures { StatesAddUp }
{}

/// Tests whose identifiers are equal are of one class and one method.
pub fn identifiers_differ()
    ensures { IdsDiffer }
{}

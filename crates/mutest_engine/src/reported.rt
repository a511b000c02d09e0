//! What the report is made of.

ghost use Rattle.std.specs.Prelude.{◌≡◌, IfOk};
ghost use Rattle.suite_runs.specs.Below.{ClassFiles, files_of};
ghost use Rattle.mutest_engine.specs.Reported.{AreFilesOf, input_of};

use class_model::{Bytes, Memory, Seq};
use class_table::{Program, Test};
use mutator_ops::{Mutant, Verdict};
use report_pieces::{Group, ReportInput, mutant_files, test_files};
use std::alloc::Global;

/// The files of the report.
#[derive(Drop)]
pub struct ReportFiles {
    pub mutants: Seq<Group>,
    pub tests: Seq<Group>,
}

/// What is reported of a job, but for sources: the report's input, the bytes of the new history, and
/// how many of its records old ones stand for.
#[derive(Drop)]
pub struct Reported {
    pub input: ReportInput,
    pub history: Bytes,
    pub reused: u64,
}

/// The files of mutants and of tests, by their classes.
pub fn files_of(
    alloc: Global,
    program: &Program,
    tests: &[Test],
    mutants: &[Mutant],
) -> Result<ReportFiles, Memory>
    ensures { IfOk result (λ files.
        AreFilesOf (files_of program.now) tests.now mutants.now files) }
{
    let mutants = mutant_files(alloc, program, mutants)?;
    let tests = test_files(alloc, program, tests)?;
    Ok(ReportFiles { mutants, tests })
}

/// What the report is made of. No source is read yet.
pub fn input_of(
    alloc: Global,
    files: ReportFiles,
    tests: Seq<Test>,
    mutants: Seq<Mutant>,
    verdicts: Seq<Verdict>,
) -> ReportInput
    ensures { (classes : ClassFiles) → AreFilesOf classes tests mutants files →
        result ≡ input_of classes tests mutants verdicts }
{
    ReportInput {
        mutants,
        verdicts,
        tests,
        files: files.mutants,
        test_files: files.tests,
        sources: Seq::new(alloc),
    }
}

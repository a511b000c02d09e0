//! What a report is made of.

use class_model::{Bytes, Seq};
use class_table::Test;
use mutator_ops::{Mutant, Verdict};

/// A file of the report: its key in UTF-8, and the numbers of the mutants, or of the tests, that
/// stand in it.
#[derive(Drop)]
pub struct Group {
    pub key: Bytes,
    pub numbers: Seq<usize>,
}

/// What a report is made of. A number that names nothing is left out.
#[derive(Drop)]
pub struct ReportInput {
    pub mutants: Seq<Mutant>,
    /// What the tests say of each mutant, by the numbers of the tests.
    pub verdicts: Seq<Verdict>,
    pub tests: Seq<Test>,
    /// The files of mutants, in the order of the report.
    pub files: Seq<Group>,
    /// The files of tests. A test that is in none isn't listed.
    pub test_files: Seq<Group>,
    /// The source of each file of mutants. A file without one has an empty source, and so has one
    /// whose source isn't UTF-8.
    pub sources: Seq<Bytes>,
}

//! What all workers of a job share.

use crate::look_ups::LookUps;
use class_model::Seq;
use class_table::Test;
use machine_rules::Limits;
use mutator_ops::Mutant;

/// The cells of a suite: its mutants, and for each the numbers of the tests that cover it, in their
/// order, none where it isn't viable; the tests, and for each how many steps its run on a mutant may
/// take; the limits of all runs; whether all detecting tests are asked for, or the first; and what
/// old records have of the runs.
#[derive(Drop)]
pub struct JobSetup<'a, 'r, 'h> {
    pub mutants: &'a [Mutant],
    pub covering: &'a [Seq<u32>],
    pub tests: &'a [Test],
    pub bounds: &'a [u64],
    pub limits: Limits,
    pub all: bool,
    pub look_ups: &'a LookUps<'r, 'h>,
}

/// The runs of a suite's tests on its program as it is: the tests, the limits of all runs, how many
/// steps each may take, and what old records have of them.
#[derive(Drop)]
pub struct OriginalSetup<'a, 'r, 'h> {
    pub tests: &'a [Test],
    pub limits: Limits,
    pub steps: u64,
    pub look_ups: &'a LookUps<'r, 'h>,
}

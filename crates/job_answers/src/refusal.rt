//! Why a job is refused.

use class_model::{Outcome, Seq};

/// A test that doesn't pass on the program as it is, by its number, with how its run ended.
#[derive(Drop)]
pub struct FailedTest {
    pub test: u32,
    pub outcome: Outcome,
}

/// Why a job is refused.
#[derive(Drop)]
pub enum JobRefusal {
    /// Not all tests pass on the program as it is; these don't, in their order.
    NotGreen { failed: Seq<FailedTest> },
    /// More than 4,194,304 tests cover mutants, each counted for each mutant that it covers.
    TooManyCells,
}

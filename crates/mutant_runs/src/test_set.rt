//! The tests by which mutants are judged.

ghost use Rattle.std.specs.Prelude.{◌≡◌, ◌<◌, ◌≤◌, ◌^◌, All, length};
ghost use Rattle.mutant_runs.specs.Runs.{most_steps};

use class_table::Test;
use line_coverage::Coverage;
use machine_rules::Limits;

/// The tests by which mutants are judged: 65,535 at most, with the steps of each one's run on the
/// program as it is, at its place, the lines that these runs reached, and the limits of all runs.
#[derive(Drop)]
pub struct TestSet<'a> {
    pub tests: &'a [Test],
    pub steps: &'a [u64],
    pub cover: &'a Coverage,
    pub limits: Limits,
    pub ghost few: { length tests.now ≤ 65535 },
    pub ghost each: { length steps.now ≡ length tests.now },
    pub ghost timed: { All (λ n. n ≤ most_steps) steps.now },
    pub ghost covered: { cover.now.tests ≡ length tests.now },
    pub ghost small: { limits.heap < 2 ^ 31 },
}

//! The tests of a suite: those of the class files of its tests folder. They are counted before one
//! is made.

ghost use Rattle.std.specs.Prelude.{◌≡◌, ◌+◌, ◌≤◌, length};
ghost use Rattle.mutest_engine.specs.Discovered.{refuse_many_tests, tests_from};
ghost use Rattle.mutest_engine.specs.Steps.{Gives};

use crate::numbers::numbers_from;
use crate::refusal::{Limit, Refusal};
use crate::stop::Stop;
use class_model::Seq;
use class_table::{Program, Test};
use std::alloc::Global;
use test_discovery::{count_tests, tests};

const TESTS_LIMIT: u64 = 65_535;

// Refuses so many tests where they are past the limit.
fn refuse_many_tests(count: u64) -> Result<(), Refusal>
    ensures { result ≡ refuse_many_tests count }
{
    if count > TESTS_LIMIT {
        return Err(Refusal::TooMany {
            limit: Limit::Tests,
            number: TESTS_LIMIT + 1,
        });
    }
    Ok(())
}

/// The tests of so many classes of a program, from this one on, or why they are refused: by a fault
/// of a class, or as too many. None is made then.
pub fn tests_from(
    alloc: Global,
    program: &Program,
    first: usize,
    count: usize,
) -> Result<Seq<Test>, Stop>
    requires { first + count ≤ length program.now }
    ensures { Gives (tests_from program.now first count) result }
{
    let _all = program.len();
    let ids = numbers_from(alloc, first as u32, count as u32)?;
    let number = count_tests(alloc, program, &ids)?;
    refuse_many_tests(number)?;
    let found = tests(alloc, program, &ids)?;
    Ok(found)
}

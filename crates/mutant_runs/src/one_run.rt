//! What the run of one test says of a mutant.

ghost use Rattle.std.specs.Prelude.{◌≡◌, ◌+◌, ◌≤◌, ◌<◌, ◌^◌, IfOk, OnOk};
ghost use Rattle.machine_rules.specs.Runs.{limit_of};
ghost use Rattle.class_table.specs.Table.{look};
ghost use Rattle.jvm_run.specs.Below.{IsRunnable};
ghost use Rattle.jvm_run.specs.Below.{AreTablesOf};
ghost use Rattle.mutant_runs.specs.Promises.{run_in};
ghost use Rattle.mutant_runs.specs.Runs.{detected, detected_at, detected_by, most_steps, most_limit};

use class_model::{Memory, Outcome};
use class_table::{Program, Test};
use jvm_run::{End, Tables, execute_to_end};
use machine_rules::Limits;
use mt_edge::MeterPart;
use mutator_ops::State;
use std::alloc::Global;

// The limit of a mutant's run of a test that took so many steps.
fn limit_of(steps: u64) -> u64
    requires { steps ≤ most_steps }
    ensures value { result ≡ limit_of steps }
    ensures most { result ≤ most_limit }
{
    steps + steps / 4 + 100_000
}

// The state that an outcome gives to a mutant.
fn detected_by(outcome: Outcome) -> Option<State>
    ensures { result ≡ detected_by outcome }
{
    match outcome {
        Outcome::Passed => None,
        Outcome::Failed(cause) => Some(State::Killed(cause)),
        Outcome::TimedOut => Some(State::TimedOut),
        Outcome::MemoryOut => Some(State::MemoryError),
    }
}

// The state that the end of a run gives to a mutant.
fn detected_at(end: End) -> Option<State>
    ensures { result ≡ detected_at end }
{
    match end {
        End::With(outcome) => detected_by(outcome),
        End::Stuck => Some(State::RunError),
    }
}

/// The state that the run of a test gives to a mutant, whose program this is, with its tables; none
/// where the test passes. The test's run on the program as it is took so many steps.
pub fn run_test(
    alloc: Global,
    program: &Program,
    tables: &mut Tables,
    test: &Test,
    steps: u64,
    limits: Limits,
    part: &mut MeterPart,
) -> Result<Option<State>, Memory>
    requires runnable { IsRunnable (look program.now) }
    requires tables { AreTablesOf program.now tables.old }
    requires small { limits.heap < 2 ^ 31 }
    requires timed { steps ≤ most_steps }
    requires room { part.old + most_limit < 2 ^ 64 }
    ensures detected { IfOk result (λ state. state
        ≡ detected (run_in limits program.now test.now steps).ending) }
    ensures steps { OnOk result (part.new ≡ part.old
        + (run_in limits program.now test.now steps).steps) }
    ensures most { part.new ≤ part.old + (run_in limits program.now test.now steps).steps }
    ensures tables { AreTablesOf program.now tables.new }
{
    let end = execute_to_end(alloc, program, tables, test, limits, limit_of(steps), part)?;
    Ok(detected_at(end))
}

//! The runs of the tests that cover a mutant.

ghost use Rattle.std.specs.Prelude.{◌≡◌, ◌+◌, ◌≤◌, ◌<◌, ◌^◌, All, length, IfOk, OnOk};
ghost use Rattle.class_table.specs.Table.{look};
ghost use Rattle.jvm_run.specs.Below.{IsRunnable};
ghost use Rattle.jvm_run.specs.Below.{AreTablesOf};
ghost use Rattle.mutant_runs.specs.Promises.{IsKiller, steps_run};
ghost use Rattle.mutant_runs.specs.Runs.{most_steps};

use crate::one_run::run_test;
use class_model::Memory;
use class_table::{Program, Test};
use jvm_run::Tables;
use machine_rules::Limits;
use mt_edge::MeterPart;
use mutator_ops::State;
use std::alloc::Global;

/// Runs the tests of these numbers on a mutant, whose program this is, with its tables, up to the
/// first that detects it, and gives that one's number and the state that it gives to the mutant.
/// Each test's run on the program as it is took so many steps.
pub fn run_tests(
    alloc: Global,
    program: &Program,
    tables: &mut Tables,
    tests: &[Test],
    steps: &[u64],
    covering: &[u32],
    limits: Limits,
    part: &mut MeterPart,
) -> Result<Option<(u32, State)>, Memory>
    requires runnable { IsRunnable (look program.now) }
    requires tables { AreTablesOf program.now tables.old }
    requires small { limits.heap < 2 ^ 31 }
    requires numbers { All (λ k. k < length tests.now) covering.now }
    requires few { length covering.now ≤ 65535 }
    requires each { length steps.now ≡ length tests.now }
    requires timed { All (λ n. n ≤ most_steps) steps.now }
    requires room { part.old < 2 ^ 63 }
    ensures told { IfOk result
        (IsKiller limits program.now tests.now steps.now covering.now) }
    ensures steps { OnOk result (part.new ≡ part.old
        + steps_run limits program.now tests.now steps.now covering.now) }
    ensures most { part.new ≤ part.old
        + steps_run limits program.now tests.now steps.now covering.now }
    ensures tables { AreTablesOf program.now tables.new }
{
    for number in covering {
        let at = *number as usize;
        let detected = run_test(alloc, program, tables, &tests[at], steps[at], limits, part)?;
        if let Some(state) = detected {
            return Ok(Some((*number, state)));
        }
    }
    Ok(None)
}

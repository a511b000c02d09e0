//! The calls over which wrong bodies are tried.

ghost use Rattle.std.specs.Prelude.{◌≡◌, ◌+◌, ◌≤◌, ◌<◌, ◌^◌, All, length, IfOk, OnOk};
ghost use Rattle.mutant_runs.specs.Programs.{files_of, IsMutantOf};
ghost use Rattle.mutant_runs.specs.Promises.{AreViable, AreVerdicts, steps_for_all};
ghost use Rattle.mutant_runs.specs.Ready.{IsReady};

use class_model::{Memory, Seq};
use class_table::Program;
use mt_edge::MeterPart;
use mutant_runs::TestSet;
use mutator_ops::{Mutant, Verdict};
use std::alloc::Global;

/// `mutant_runs::viable`
pub fn viable(alloc: Global, program: &Program, mutants: &[Mutant]) -> Result<Seq<bool>, Memory>
    requires ready { IsReady program.now }
    requires fit { All (IsMutantOf (files_of program.now)) mutants.now }
    ensures { IfOk result (AreViable program.now mutants.now) }
{
    let flags = mutant_runs::viable(alloc, program, mutants)?;
    Ok(flags)
}

/// `mutant_runs::verdicts`
pub fn verdicts(
    alloc: Global,
    program: &mut Program,
    set: &TestSet,
    mutants: &[Mutant],
    viable: &[bool],
    part: &mut MeterPart,
) -> Result<Seq<Verdict>, Memory>
    requires ready { IsReady program.old }
    requires few_mutants { length mutants.now ≤ 262144 }
    requires room { part.old < 2 ^ 62 }
    requires fit { All (IsMutantOf (files_of program.old)) mutants.now }
    requires viable { AreViable program.old mutants.now viable.now }
    ensures told { IfOk result
        (AreVerdicts set.now.limits program.old set.now.tests.now set.now.steps.now
        set.now.cover.now mutants.now) }
    ensures steps { OnOk result (part.new ≡ part.old
        + steps_for_all set.now.limits program.old set.now.tests.now set.now.steps.now
        set.now.cover.now mutants.now) }
    ensures most { part.new ≤ part.old
        + steps_for_all set.now.limits program.old set.now.tests.now set.now.steps.now
        set.now.cover.now mutants.now }
    ensures same { program.new ≡ program.old }
{
    let verdicts = mutant_runs::verdicts(alloc, program, set, mutants, viable, part)?;
    Ok(verdicts)
}

//! The verdict on one mutant, by the tests that reach its class and line.

ghost use Rattle.std.specs.Prelude.{◌≡◌, ◌+◌, ◌≤◌, ◌<◌, ◌^◌, true, IfOk, OnOk};
ghost use Rattle.jvm_run.specs.Below.{AreNamedOf};
ghost use Rattle.mutant_runs.specs.Files.{IsKept};
ghost use Rattle.mutant_runs.specs.Programs.{files_of, IsMutantOf};
ghost use Rattle.mutant_runs.specs.Promises.{AreCovering, IsVerdictBy, steps_of, TellsViable};
ghost use Rattle.mutant_runs.specs.Ready.{IsReady};

use crate::class_bytes::ClassBytes;
use crate::on_mutant::run_mutant;
use crate::test_set::TestSet;
use crate::verdict::{not_covered, not_viable};
use class_model::{Memory, Seq};
use class_table::Program;
use jvm_run::Tables;
use line_coverage::Coverage;
use mt_edge::MeterPart;
use mutator_ops::{Mutant, Verdict};
use std::alloc::Global;

/// The numbers of the tests that reach a mutant's class and line, in their order.
pub fn covering_tests(
    alloc: Global,
    program: &Program,
    cover: &Coverage,
    mutant: &Mutant,
) -> Result<Seq<u32>, Memory>
    requires { cover.now.tests < 2 ^ 32 }
    ensures { IfOk result (AreCovering program.now cover.now mutant.now) }
{
    let Some(id) = program.find(&mutant.class) else {
        return Ok(Seq::new(alloc));
    };
    let mut tests = Vec::new(alloc);
    cover.push_tests(id, mutant.line, &mut tests)?;
    Ok(Seq::from_vec(tests))
}

// The verdict on a mutant that is viable. Its class isn't made where no test covers it.
fn run_covering(
    alloc: Global,
    program: &mut Program,
    tables: &mut Tables,
    set: &TestSet,
    mutant: &Mutant,
    part: &mut MeterPart,
    kept: &mut Option<ClassBytes>,
) -> Result<Verdict, Memory>
    requires ready { IsReady program.old }
    requires named { AreNamedOf program.old tables.old }
    requires room { part.old < 2 ^ 63 }
    requires fit { IsMutantOf (files_of program.old) mutant.now }
    requires viable { TellsViable program.old mutant.now true }
    requires kept { IsKept program.old kept.old }
    ensures told { IfOk result
        (IsVerdictBy set.now.limits program.old set.now.tests.now set.now.steps.now
        set.now.cover.now mutant.now) }
    ensures steps { OnOk result (part.new ≡ part.old
        + steps_of set.now.limits program.old set.now.tests.now set.now.steps.now
        set.now.cover.now mutant.now) }
    ensures most { part.new ≤ part.old
        + steps_of set.now.limits program.old set.now.tests.now set.now.steps.now
        set.now.cover.now mutant.now }
    ensures same { program.new ≡ program.old }
    ensures named { AreNamedOf program.old tables.new }
    ensures kept { OnOk result (IsKept program.old kept.new) }
{
    let covering = covering_tests(alloc, program, set.cover, mutant)?;
    if covering.is_empty() {
        return Ok(not_covered(alloc));
    }
    run_mutant(alloc, program, tables, set, mutant, covering, part, kept)
}

/// The verdict on a mutant, of which it is told whether it is viable, by runs of the tests that
/// reach its class and line. The program is as before afterwards.
pub fn verdict_on(
    alloc: Global,
    program: &mut Program,
    tables: &mut Tables,
    set: &TestSet,
    mutant: &Mutant,
    viable: bool,
    part: &mut MeterPart,
    kept: &mut Option<ClassBytes>,
) -> Result<Verdict, Memory>
    requires ready { IsReady program.old }
    requires named { AreNamedOf program.old tables.old }
    requires room { part.old < 2 ^ 63 }
    requires fit { IsMutantOf (files_of program.old) mutant.now }
    requires viable { TellsViable program.old mutant.now viable }
    requires kept { IsKept program.old kept.old }
    ensures told { IfOk result
        (IsVerdictBy set.now.limits program.old set.now.tests.now set.now.steps.now
        set.now.cover.now mutant.now) }
    ensures steps { OnOk result (part.new ≡ part.old
        + steps_of set.now.limits program.old set.now.tests.now set.now.steps.now
        set.now.cover.now mutant.now) }
    ensures most { part.new ≤ part.old
        + steps_of set.now.limits program.old set.now.tests.now set.now.steps.now
        set.now.cover.now mutant.now }
    ensures same { program.new ≡ program.old }
    ensures named { AreNamedOf program.old tables.new }
    ensures kept { OnOk result (IsKept program.old kept.new) }
{
    if !viable {
        return Ok(not_viable(alloc));
    }
    run_covering(alloc, program, tables, set, mutant, part, kept)
}

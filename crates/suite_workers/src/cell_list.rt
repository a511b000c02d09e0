//! The cells of a job, by number.

ghost use Rattle.std.specs.Prelude.{◌≡◌, ◌++◌, IfOk, OnOk, length, replicate};
ghost use Rattle.suite_workers.specs.Cells.{AreListed};

use class_model::{Memory, Seq};
use std::alloc::Global;
use worker_gate::JobCells;

// A cell for each of these tests of a mutant.
fn push_cells(
    mutant: u64,
    tests: &[u32],
    mutants: &mut Vec<u64>,
    all: &mut Vec<u64>,
) -> Result<(), Memory>
    ensures mutants { OnOk result
        (mutants.new.items ≡ mutants.old.items ++ replicate (length tests.now) mutant) }
    ensures tests { OnOk result (all.new.items ≡ all.old.items ++ tests.now) }
{
    for test in tests {
        mutants.push(mutant)?;
        all.push(u64::from(*test))?;
    }
    Ok(())
}

/// The cells of mutants with these covering tests: two lists by number.
pub fn cells_of(alloc: Global, covering: &[Seq<u32>], all: bool) -> Result<JobCells, Memory>
    ensures { IfOk result (AreListed covering.now all) }
{
    let mut mutants = Vec::new(alloc);
    let mut tests = Vec::new(alloc);
    for (mutant, numbers) in covering.iter().enumerate() {
        push_cells(mutant as u64, numbers.as_slice(), &mut mutants, &mut tests)?;
    }
    Ok(JobCells {
        mutants: Seq::from_vec(mutants),
        tests: Seq::from_vec(tests),
        count: covering.len() as u64,
        all,
    })
}

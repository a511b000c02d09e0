//! Which mutants are viable, asked by workers.

ghost use Rattle.std.specs.Prelude.{◌≡◌, ◌<◌, ◌≤◌, ◌*◌, IfOk, Ok};
ghost use Rattle.suite_jobs.specs.Below.{AreViable};
ghost use Rattle.suite_workers.specs.Viability.{MayBeAsked, told_by};

use class_model::{Memory, Seq};
use class_table::Program;
use mutator_ops::Mutant;
use std::alloc::Global;
use std::thread;
use std::thread::Threads;
use suite_jobs::viable;

// Which of these mutants are viable.
fn viable_among(alloc: Global, program: &Program, mutants: &[Mutant]) -> Result<Seq<bool>, Memory>
    requires { MayBeAsked program.now mutants.now }
    ensures { IfOk result (AreViable program.now mutants.now) }
{
    viable(alloc, program, mutants)
}

// How many mutants each worker is asked of, so that all are.
fn share(count: usize, workers: u64) -> usize
    requires { 0 < workers }
    ensures some { 0 < result }
    ensures all { count ≤ workers * result }
{
    count.div_ceil(workers as usize).max(1)
}

// What all parts tell.
fn joined(alloc: Global, parts: Vec<Result<Seq<bool>, Memory>>) -> Result<Seq<bool>, Memory>
    ensures { IfOk result (λ all. told_by parts.items ≡ Ok all) }
{
    let mut all = Vec::new(alloc);
    for part in parts {
        let told = part?;
        all.extend_from_slice(told.as_slice())?;
    }
    Ok(Seq::from_vec(all))
}

/// Whether each mutant is viable: its class has a layout and is accepted. So many workers are asked
/// at most, each of mutants that follow one another.
pub fn viable_by_workers<W: Threads + Sync>(
    rt: &W,
    alloc: Global,
    workers: u64,
    program: &Program,
    mutants: &[Mutant],
) -> Result<Seq<bool>, Memory>
    requires some { 0 < workers }
    requires asked { MayBeAsked program.now mutants.now }
    ensures { IfOk result (AreViable program.now mutants.now) }
{
    let size = share(mutants.len(), workers);
    let parts = thread::map_chunks(
        rt,
        alloc,
        mutants,
        size,
        &|_, part: &[Mutant]| -> Result<Seq<bool>, Memory>
            requires { MayBeAsked program.now part.now }
            ensures { IfOk result (AreViable program.entry.now part.entry.now) }
        { viable_among(alloc, program, part) },
    )?;
    joined(alloc, parts)
}

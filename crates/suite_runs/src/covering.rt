//! Which tests cover each mutant, and how many cells that makes.

ghost use Rattle.std.specs.Prelude.{◌≡◌, ◌<◌, ◌^◌, length, map, zip, IfOk};
ghost use Rattle.std.specs.Io.Iter.{u64_saturate};
ghost use Rattle.job_answers.specs.Answers.{unless_many};
ghost use Rattle.suite_runs.specs.Covering.{count_all, numbers_of};

use class_model::{Memory, Seq};
use class_table::Program;
use job_answers::JobRefusal;
use line_coverage::Coverage;
use mutator_ops::Mutant;
use std::alloc::Global;
use suite_workers::covering_tests;

const CELLS_LIMIT: u64 = 4_194_304;

// How many tests cover a mutant: none where it isn't viable. The count stays at 2^64 - 1.
fn count_of(program: &Program, cover: &Coverage, mutant: &Mutant, viable: bool) -> u64
    ensures { result
        ≡ u64_saturate (length (numbers_of program.now cover.now (mutant.now, viable))) }
{
    if !viable {
        return 0;
    }
    match program.find(&mutant.class) {
        Some(class) => cover.count_at(class, mutant.line),
        None => 0,
    }
}

/// How many cells there are. None is made. The count stays at 2^64 - 1.
pub fn cell_count(program: &Program, cover: &Coverage, mutants: &[Mutant], viable: &[bool]) -> u64
    requires { length viable.now ≡ length mutants.now }
    ensures { result
        ≡ u64_saturate (count_all program.now cover.now (zip mutants.now viable.now)) }
{
    let mut count = 0u64;
    for (at, mutant) in mutants.iter().enumerate() {
        let own = count_of(program, cover, mutant, viable[at]);
        count = count.saturating_add(own);
    }
    count
}

/// Refuses so many cells where they are too many.
pub fn refuse_many(count: u64) -> Result<(), JobRefusal>
    ensures { result ≡ unless_many count (Ok tt) }
{
    if count > CELLS_LIMIT {
        return Err(JobRefusal::TooManyCells);
    }
    Ok(())
}

// The tests that cover a mutant, by number, in their order.
fn covering_one(
    alloc: Global,
    program: &Program,
    cover: &Coverage,
    mutant: &Mutant,
    viable: bool,
) -> Result<Seq<u32>, Memory>
    requires { cover.now.tests < 2 ^ 32 }
    ensures { IfOk result (λ ks. ks ≡ numbers_of program.now cover.now (mutant.now, viable)) }
{
    if !viable {
        return Ok(Seq::new(alloc));
    }
    let tests = covering_tests(alloc, program, cover, mutant)?;
    Ok(tests)
}

/// For each mutant the tests that cover it.
pub fn covering_all(
    alloc: Global,
    program: &Program,
    cover: &Coverage,
    mutants: &[Mutant],
    viable: &[bool],
) -> Result<Seq<Seq<u32>>, Memory>
    requires tests { cover.now.tests < 2 ^ 32 }
    requires viable { length viable.now ≡ length mutants.now }
    ensures { IfOk result (λ all.
        all ≡ map (numbers_of program.now cover.now) (zip mutants.now viable.now)) }
{
    let mut all = Seq::with_capacity(alloc, mutants.len())?;
    for (at, mutant) in mutants.iter().enumerate() {
        let tests = covering_one(alloc, program, cover, mutant, viable[at])?;
        all.push(tests)?;
    }
    Ok(all)
}

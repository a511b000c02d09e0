//! The verdicts on mutants, by the tests that cover them and those that detect them.

ghost use Rattle.std.specs.Prelude.{◌≡◌, ◌<◌, ◌≤◌, [], false, length, map, slice_index_or, IfOk};
ghost use Rattle.job_answers.specs.Answers.{verdict_with};
ghost use Rattle.suite_runs.specs.Judging.{state_by, verdict_at, verdicts_from};

use class_model::{Memory, Seq};
use mutator_ops::{State, Verdict};
use std::alloc::Global;
use std::collections::VecDeque;
use suite_workers::not_viable;

// The numbers of the tests that detect a mutant.
fn killers_of(alloc: Global, found: &[(u32, State)]) -> Result<Seq<u32>, Memory>
    ensures { IfOk result (λ killers. killers ≡ map (λ d. d.0) found.now) }
{
    let mut killers = Seq::with_capacity(alloc, found.len())?;
    for one in found {
        killers.push(one.0)?;
    }
    Ok(killers)
}

// The state of a mutant that some test covers, or none, by the tests that detect it.
fn state_by(covered: bool, found: Seq<(u32, State)>) -> State
    ensures { result ≡ state_by covered found }
{
    if !covered {
        return State::NoCoverage;
    }
    let mut found = VecDeque::from_vec(found.into_vec());
    match found.pop_front() {
        Some((_test, state)) => state,
        None => State::Survived,
    }
}

// The verdict on a mutant that is viable.
fn verdict_with(
    alloc: Global,
    covering: &[u32],
    found: Seq<(u32, State)>,
) -> Result<Verdict, Memory>
    ensures { IfOk result (λ v. v ≡ verdict_with covering.now found) }
{
    let killers = killers_of(alloc, found.as_slice())?;
    let covering = Seq::from_slice(alloc, covering)?;
    let covered = !covering.is_empty();
    let state = state_by(covered, found);
    Ok(Verdict {
        state,
        killers,
        covering,
    })
}

fn verdict_at(
    alloc: Global,
    viable: bool,
    covering: &Seq<u32>,
    found: Seq<(u32, State)>,
) -> Result<Verdict, Memory>
    ensures { IfOk result (λ v. v ≡ verdict_at viable covering.now found) }
{
    if !viable {
        return Ok(not_viable(alloc));
    }
    let verdict = verdict_with(alloc, covering.as_slice(), found)?;
    Ok(verdict)
}

// The verdict on the mutant of this number.
fn verdict_of(
    alloc: Global,
    viable: &[bool],
    covering: &[Seq<u32>],
    at: usize,
    found: Seq<(u32, State)>,
) -> Result<Verdict, Memory>
    requires viable { at < length viable.now }
    requires covering { at < length covering.now }
    ensures { IfOk result (λ v. v ≡ verdict_at (slice_index_or viable.now at false)
        (slice_index_or covering.now at []) found) }
{
    let verdict = verdict_at(alloc, viable[at], &covering[at], found)?;
    Ok(verdict)
}

/// The verdict on each mutant, of which it is told whether it is viable, and which tests cover it.
pub fn verdicts_of(
    alloc: Global,
    viable: &[bool],
    covering: &[Seq<u32>],
    found: Seq<Seq<(u32, State)>>,
) -> Result<Seq<Verdict>, Memory>
    requires viable { length found ≤ length viable.now }
    requires covering { length found ≤ length covering.now }
    ensures { IfOk result (λ vs. vs ≡ verdicts_from viable.now covering.now 0 found) }
{
    let mut verdicts = Seq::with_capacity(alloc, viable.len())?;
    let mut at = 0;
    for one in found.into_vec() {
        let verdict = verdict_of(alloc, viable, covering, at, one)?;
        verdicts.push(verdict)?;
        at += 1;
    }
    Ok(verdicts)
}

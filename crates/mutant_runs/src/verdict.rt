//! The verdict on a mutant, by the tests that cover it and the first that detects it.

ghost use Rattle.std.specs.Prelude.{◌≡◌, IfOk};
ghost use Rattle.mutant_runs.specs.Verdicts.{verdict_by, not_covered, not_viable};

use class_model::{Memory, Seq};
use mutator_ops::{State, Verdict};
use std::alloc::Global;

/// The verdict by the tests that cover a mutant, and the first that detects it with the state that
/// it gives.
pub fn verdict_by(
    alloc: Global,
    covering: Seq<u32>,
    killer: Option<(u32, State)>,
) -> Result<Verdict, Memory>
    ensures { IfOk result (λ v. v ≡ verdict_by covering killer) }
{
    if covering.is_empty() {
        return Ok(not_covered(alloc));
    }
    let mut killers = Seq::new(alloc);
    match killer {
        None => Ok(Verdict {
            state: State::Survived,
            killers,
            covering,
        }),
        Some((test, state)) => {
            killers.push(test)?;
            Ok(Verdict {
                state,
                killers,
                covering,
            })
        }
    }
}

/// The verdict on a mutant whose line no test reaches.
pub fn not_covered(alloc: Global) -> Verdict
    ensures { result ≡ not_covered }
{
    Verdict {
        state: State::NoCoverage,
        killers: Seq::new(alloc),
        covering: Seq::new(alloc),
    }
}

/// The verdict on a mutant whose edited class has no layout or is refused.
pub fn not_viable(alloc: Global) -> Verdict
    ensures { result ≡ not_viable }
{
    Verdict {
        state: State::NonViable,
        killers: Seq::new(alloc),
        covering: Seq::new(alloc),
    }
}

//! The outcome of a run, with the class of what was thrown.

ghost use Rattle.std.specs.Prelude.{◌≡◌, Some, IfOk};
ghost use Rattle.machine_rules.specs.Outcomes.{outcome_of_stop, thrown_class};
ghost use Rattle.record_rules.specs.Outcomes.{outcome_in};
ghost use Rattle.jvm_world.specs.View.{object_of};
ghost use Rattle.jvm_run.specs.Ending.{IsOutcomeBy, TellsThrown};

use class_model::names::ascii;
use class_model::{Cause, Memory, Name, Outcome, Seq};
use class_table::Program;
use jvm_step::{Machine, StateEnd, name_at};
use jvm_values::{ObjKind, Object};
use jvm_world::World;
use machine_rules::Stop;
use std::alloc::Global;

// The class of an object that was thrown: no array is.
fn class_of(alloc: Global, p: &Program, object: &Object) -> Result<Name, Memory>
    ensures { IfOk result (λ n. n ≡ thrown_class (Some (object_of p.now object.now))) }
{
    match &object.kind {
        ObjKind::Plain(class) => name_at(alloc, p, *class),
        ObjKind::Text => ascii(alloc, "java/lang/String"),
        ObjKind::Array(_) => Ok(Seq::new(alloc)),
    }
}

// The class of the object of a number that was thrown: a number without an object has none.
fn thrown_class(alloc: Global, p: &Program, world: &World, object: u32) -> Result<Name, Memory>
    ensures { IfOk result (TellsThrown p.now world.now object) }
{
    match world.object(p, object) {
        Some(found) => {
            let class = class_of(alloc, p, found)?;
            Ok(class)
        }
        None => Ok(Seq::new(alloc)),
    }
}

// The outcome of a run that is over though its script isn't.
fn outcome_of_stop(stop: Stop) -> Outcome
    ensures { result ≡ outcome_in (outcome_of_stop stop) }
{
    match stop {
        Stop::HeapPassed => Outcome::MemoryOut,
        Stop::TestReturned => Outcome::Failed(Cause::Returned),
    }
}

/// The outcome of a run that comes to a state which has ended so, or to one that hasn't ended
/// within its steps.
pub fn outcome_of(
    alloc: Global,
    p: &Program,
    m: &Machine,
    end: Option<StateEnd>,
) -> Result<Outcome, Memory>
    ensures { IfOk result (IsOutcomeBy p.now m.now end) }
{
    match end {
        Some(StateEnd::Done) => Ok(Outcome::Passed),
        Some(StateEnd::Left(object)) => {
            let class = thrown_class(alloc, p, &m.world, object)?;
            Ok(Outcome::Failed(Cause::Thrown(class)))
        }
        Some(StateEnd::Over(stop)) => Ok(outcome_of_stop(stop)),
        None => Ok(Outcome::TimedOut),
    }
}

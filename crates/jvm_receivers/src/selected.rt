//! A method that was selected is called.

ghost use Rattle.std.specs.Prelude.{◌≡◌, ℕ, IfOk, IfSome, OnOk};
ghost use Rattle.program_rules.specs.Faults.{Answer};
ghost use Rattle.program_rules.specs.Instructions.{MethodRef};
ghost use Rattle.program_rules.specs.Resolution.{MethodAt};
ghost use Rattle.machine_rules.specs.Lookups.{Known};
ghost use Rattle.jvm_frames.specs.Frames.{HasWords};
ghost use Rattle.jvm_link.specs.Answers.{AnswersCall, IsCallee};
ghost use Rattle.jvm_world.specs.View.{IsWorldOf, IsKept};
ghost use Rattle.jvm_invokes.specs.Calls.{IsThere};
ghost use Rattle.jvm_invokes.specs.Invoked.{Invokes, StaysOrEnters};
ghost use Rattle.jvm_receivers.specs.Objects.{SelectsFor};
ghost use Rattle.jvm_receivers.specs.Receivers.{selecting, selecting_on};
ghost use Rattle.jvm_receivers.specs.Selected.{IsAnswer, is_fixed};
ghost use Rattle.jvm_receivers.specs.Targets.{received};

use class_model::Memory;
use class_model::flags::is_private;
use class_table::Program;
use jvm_frames::{Args, Frames};
use jvm_invokes::{Invoked, call_found, flags_at, throw};
use jvm_link::Callee;
use jvm_unwind::Turn;
use jvm_world::World;
use program_rules::Fault;
use std::alloc::Global;

/// The flags of what was found. An array's `clone` is public.
#[tactic(auto, using(crate::proofs::Selecting::method_flags, crate::proofs::Selecting::clone_flags))]
#[inline(always)]
pub fn flags_of(p: &Program, callee: Callee) -> u16
    requires { IsThere p.now callee }
    ensures { (m : MethodAt) → IsCallee p.now m callee → m.flags ≡ result }
{
    match callee {
        Callee::Method(site) => flags_at(p, site),
        Callee::ArrayClone => 1,
    }
}

/// Whether a method is what each object selects of it: a private one, and an array's `clone`.
#[tactic(auto, using(crate::proofs::Absent::method_fixed, crate::proofs::Absent::clone_fixed))]
#[inline(always)]
pub fn is_fixed(p: &Program, callee: Callee) -> bool
    requires { IsThere p.now callee }
    ensures { (m : MethodAt) → IsCallee p.now m callee → is_fixed m ≡ result }
{
    match callee {
        Callee::Method(site) => {
            let flags = flags_at(p, site);
            is_private(flags)
        }
        Callee::ArrayClone => true,
    }
}

/// What was selected is called with the arguments on the stack, or the fault is thrown over the
/// stack as it is.
#[tactic(auto, using(crate::proofs::Selecting::answer_there, crate::proofs::Selecting::selected_calls, crate::proofs::Selecting::selected_throws, jvm_invokes::proofs::Standing::stays))]
#[inline(always)]
pub fn call_selected(
    frames: &mut Frames,
    world: &mut World,
    alloc: Global,
    p: &Program,
    answer: Result<Callee, Fault>,
    args: Args,
) -> Result<Invoked, Memory>
    requires world { IsWorldOf p.now world.old }
    requires args { HasWords args.count args.words frames.old }
    requires answer { IsAnswer p.now answer }
    ensures row { IfOk result (λ t. (a : Answer MethodAt) (r : MethodRef) →
        AnswersCall p.now a answer → Invokes p.now r (selecting p.now args.count a) t
        frames.old frames.new world.old world.new) }
    ensures frames { OnOk result (StaysOrEnters p.now frames.old frames.new) }
    ensures kept { OnOk result (IsKept p.now world.old world.new) }
{
    match answer {
        Ok(callee) => {
            let done = call_found(frames, world, alloc, p, callee, args)?;
            Ok(done)
        }
        Err(fault) => {
            let thrown = throw(world, alloc, p, fault)?;
            Ok(thrown)
        }
    }
}

/// What an object selected is called with it and the arguments; nothing where there is no such
/// object.
#[tactic(auto, using(jvm_invokes::proofs::Standing::stays))]
#[inline(always)]
pub fn call_answered(
    frames: &mut Frames,
    world: &mut World,
    alloc: Global,
    p: &Program,
    selected: Option<Result<Callee, Fault>>,
    args: Args,
) -> Result<Invoked, Memory>
    requires world { IsWorldOf p.now world.old }
    requires args { HasWords args.count args.words frames.old }
    requires answer { IfSome selected (IsAnswer p.now) }
    ensures row { IfOk result (λ t. (x : ℕ) (search : Known → Answer MethodAt) (r : MethodRef) →
        SelectsFor p.now world.old x search selected →
        Invokes p.now r (received x args.count (selecting_on p.now search)) t
        frames.old frames.new world.old world.new) }
    ensures frames { OnOk result (StaysOrEnters p.now frames.old frames.new) }
    ensures kept { OnOk result (IsKept p.now world.old world.new) }
{
    match selected {
        Some(answer) => {
            let done = call_selected(frames, world, alloc, p, answer, args)?;
            Ok(done)
        }
        None => Ok(Invoked::Turned(Turn::NoRow)),
    }
}

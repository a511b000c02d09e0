//! How the call of a native method ends.

ghost use Rattle.std.specs.Prelude.{◌≡◌, ◌+◌, ◌<◌, ◌^◌, IfOk, IfSome, OnOk};
ghost use Rattle.program_rules.specs.Instructions.{MethodRef as Reference};
ghost use Rattle.jvm_frames.specs.Frames.{HasWords};
ghost use Rattle.jvm_world.specs.View.{IsWorldOf, IsKept};
ghost use Rattle.jvm_invokes.specs.declared.invoked.Invoked.TheVariants.{Turned};
ghost use Rattle.jvm_invokes.specs.Invoked.{Invokes};
ghost use Rattle.lib_core.specs.declared.performing.NativeEnd.TheVariants as end;
ghost use Rattle.jvm_natives.specs.Completed.{HasGoneOn};
ghost use Rattle.jvm_natives.specs.Ends.{ending};

use crate::giving::{give, give_made};
use class_model::{Memory, Name};
use class_table::Program;
use jvm_frames::{Args, Frames};
use jvm_invokes::throw_without;
use jvm_type_rows::is_instance;
use jvm_unwind::Turn;
use jvm_world::World;
use lib_core::NativeEnd;
use program_rules::{Fault, Value};
use std::alloc::Global;

// An exception is thrown in the frame without the arguments.
#[tactic(auto, using(crate::proofs::Ended::raised, crate::proofs::Given::cut_on))]
fn raise(
    frames: &mut Frames,
    world: &mut World,
    alloc: Global,
    p: &Program,
    args: Args,
    fault: Fault,
) -> Result<Turn, Memory>
    requires world { IsWorldOf p.now world.old }
    requires args { HasWords args.count args.words frames.old }
    ensures row { IfOk result (λ t. (r : Reference) →
        Invokes p.now r (ending p.now args.count (end.Raises fault)) (Turned t)
        frames.old frames.new world.old world.new) }
    ensures frames { OnOk result (HasGoneOn frames.old frames.new) }
    ensures kept { OnOk result (IsKept p.now world.old world.new) }
{
    let turn = throw_without(frames, world, alloc, p, fault, args)?;
    Ok(turn)
}

// The object of a class is given, made at its first use.
#[tactic(auto, using(crate::proofs::Ended::class_given))]
fn give_class(
    frames: &mut Frames,
    world: &mut World,
    alloc: Global,
    p: &Program,
    args: Args,
    name: &Name,
) -> Result<Turn, Memory>
    requires world { IsWorldOf p.now world.old }
    requires args { HasWords args.count args.words frames.old }
    requires next { IfSome frames.old.frame (λ f. f.at + 1 < 2 ^ 64) }
    ensures row { IfOk result (λ t. (r : Reference) →
        Invokes p.now r (ending p.now args.count (end.ReturnsClass name.now)) (Turned t)
        frames.old frames.new world.old world.new) }
    ensures frames { OnOk result (HasGoneOn frames.old frames.new) }
    ensures kept { OnOk result (IsKept p.now world.old world.new) }
{
    let made = world.class_object(alloc, p, name)?;
    let turn = give_made(frames, args, made);
    Ok(turn)
}

// A value is given where an object is of a class or of one below it, else an exception is thrown.
#[tactic(auto, using(crate::proofs::Ended::within_given, crate::proofs::Ended::within_raised, crate::proofs::Ended::within_none, crate::proofs::Given::stays, crate::proofs::Given::count_there))]
fn give_within(
    frames: &mut Frames,
    world: &mut World,
    alloc: Global,
    p: &Program,
    args: Args,
    object: u32,
    name: &Name,
    v: Value,
    fault: Fault,
) -> Result<Turn, Memory>
    requires world { IsWorldOf p.now world.old }
    requires args { HasWords args.count args.words frames.old }
    requires next { IfSome frames.old.frame (λ f. f.at + 1 < 2 ^ 64) }
    ensures row { IfOk result (λ t. (r : Reference) →
        Invokes p.now r (ending p.now args.count (end.ReturnsWithin object name.now v fault))
        (Turned t) frames.old frames.new world.old world.new) }
    ensures frames { OnOk result (HasGoneOn frames.old frames.new) }
    ensures kept { OnOk result (IsKept p.now world.old world.new) }
{
    let within = is_instance(alloc, world, p, object, name)?;
    match within {
        Some(of_class) => {
            if of_class {
                let given = give(frames, args.count, Some(v));
                return Ok(given);
            }
            let thrown = raise(frames, world, alloc, p, args, fault)?;
            Ok(thrown)
        }
        None => Ok(Turn::NoRow),
    }
}

/// The frame goes on as a native method ended, in the place of the arguments.
#[tactic(auto, using(crate::proofs::Ended::returned, crate::proofs::Ended::no_end, crate::proofs::Given::stays, crate::proofs::Given::count_there))]
pub fn end_native(
    frames: &mut Frames,
    world: &mut World,
    alloc: Global,
    p: &Program,
    args: Args,
    end: NativeEnd,
) -> Result<Turn, Memory>
    requires world { IsWorldOf p.now world.old }
    requires args { HasWords args.count args.words frames.old }
    requires next { IfSome frames.old.frame (λ f. f.at + 1 < 2 ^ 64) }
    ensures row { IfOk result (λ t. (r : Reference) →
        Invokes p.now r (ending p.now args.count end) (Turned t)
        frames.old frames.new world.old world.new) }
    ensures frames { OnOk result (HasGoneOn frames.old frames.new) }
    ensures kept { OnOk result (IsKept p.now world.old world.new) }
{
    match end {
        NativeEnd::Returns(v) => {
            let given = give(frames, args.count, v);
            Ok(given)
        }
        NativeEnd::Raises(fault) => {
            let thrown = raise(frames, world, alloc, p, args, fault)?;
            Ok(thrown)
        }
        NativeEnd::ReturnsClass(name) => {
            let made = give_class(frames, world, alloc, p, args, &name)?;
            Ok(made)
        }
        NativeEnd::ReturnsWithin(object, name, v, fault) => {
            let within = give_within(frames, world, alloc, p, args, object, &name, v, fault)?;
            Ok(within)
        }
        NativeEnd::NoResult => Ok(Turn::NoRow),
    }
}

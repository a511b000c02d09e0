//! The object on which a method is called, which stands below the arguments (JVMS 6.5).

ghost use Rattle.std.specs.Prelude.{map, IfOk, OnOk};
ghost use Rattle.class_link.specs.Symbols.{kind_of};
ghost use Rattle.class_link.specs.View.{method_ref_of};
ghost use Rattle.jvm_world.specs.View.{IsWorldOf, IsKept};
ghost use Rattle.jvm_receivers.specs.Targets.{FindsTarget, HasTaken, Receives, TakesTarget};

use class_link::MethodRef;
use class_model::{Kind, Memory};
use class_table::Program;
use jvm_frames::{Args, Frames};
use jvm_invokes::{Invoked, throw};
use jvm_unwind::Turn;
use jvm_world::World;
use program_rules::{Fault, Value};
use std::alloc::Global;

/// What stands below the arguments of a call.
#[derive(Clone, Copy)]
pub enum Target {
    /// No reference, or there are no such arguments.
    Missing,
    Null,
    /// An object, which is the first one of these arguments.
    Object(u32, Args),
}

/// What becomes of a row that calls on an object, once it has looked for it.
#[derive(Clone, Copy)]
pub enum Taken {
    /// The row is done.
    Done(Invoked),
    /// It goes on with this object, which is the first one of these arguments.
    On(u32, Args),
}

/// What stands below arguments of these kinds.
#[tactic(auto, using(crate::proofs::Operands::no_args, crate::proofs::Operands::nothing_below))]
#[inline(always)]
pub fn target_at(frames: &Frames, kinds: &[Kind]) -> Target
    ensures { FindsTarget (map kind_of kinds.now) frames.now result }
{
    let Some(args) = frames.args(kinds) else {
        return Target::Missing;
    };
    let Some(below) = frames.with_below(args) else {
        return Target::Missing;
    };
    match below.0 {
        Value::Ref(object) => Target::Object(object, below.1),
        Value::Null => Target::Null,
        Value::Int(_) => Target::Missing,
        Value::Long(_) => Target::Missing,
    }
}

/// Looks for the object on which a method is called. For null a NullPointerException is thrown, and
/// the stack is as it was.
#[inline(always)]
pub fn take_target(
    frames: &Frames,
    world: &mut World,
    alloc: Global,
    p: &Program,
    reference: &MethodRef,
) -> Result<Taken, Memory>
    requires world { IsWorldOf p.now world.old }
    ensures row { IfOk result (λ t. (go : Receives) →
        TakesTarget p.now (method_ref_of reference.now) go t frames.now world.old world.new) }
    ensures args { IfOk result (λ t. HasTaken t frames.now) }
    ensures kept { OnOk result (IsKept p.now world.old world.new) }
{
    let kinds = reference.args.as_slice();
    match target_at(frames, kinds) {
        Target::Missing => Ok(Taken::Done(Invoked::Turned(Turn::NoRow))),
        Target::Null => {
            let thrown = throw(world, alloc, p, Fault::NullPointerException)?;
            Ok(Taken::Done(thrown))
        }
        Target::Object(object, args) => Ok(Taken::On(object, args)),
    }
}

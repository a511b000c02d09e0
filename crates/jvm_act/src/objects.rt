//! What asks an object alone: the length of an array, `athrow`, monitors.

ghost use Rattle.std.specs.Prelude.{IfOk, IfSome, OnOk};
ghost use Rattle.jvm_rows.specs.Plain.{RunsAs};
ghost use Rattle.jvm_world.specs.View.{IsWorldOf, IsKept};
ghost use Rattle.jvm_act.specs.Asking.{AsksOfObject};
ghost use Rattle.jvm_act.specs.Groups.{object_in};
ghost use Rattle.jvm_act.specs.Standing.{HasNext};

use crate::groups::ObjectOp;
use class_model::Memory;
use class_table::Program;
use jvm_frames::Frames;
use jvm_rows::{Effect, array_length, enter_monitor, exit_monitor, throw_object};
use jvm_world::World;
use std::alloc::Global;

/// Asks the object on the top of the stack.
#[tactic(auto, using(crate::proofs::Rows::measures, crate::proofs::Rows::throws, crate::proofs::Rows::enters, crate::proofs::Rows::exits))]
pub fn take_object(
    frames: &mut Frames,
    world: &mut World,
    alloc: Global,
    p: &Program,
    op: ObjectOp,
) -> Result<Effect, Memory>
    requires world { IsWorldOf p.now world.old }
    requires next { IfSome frames.old.frame HasNext }
    requires few { AsksOfObject op world.old }
    ensures row { IfOk result (λ e. RunsAs p.now (object_in op) e
        frames.old frames.new world.old world.new) }
    ensures kept { OnOk result (IsKept p.now world.old world.new) }
{
    match op {
        ObjectOp::Length => {
            let done = array_length(frames, world, alloc, p)?;
            Ok(done)
        }
        ObjectOp::Throw => {
            let done = throw_object(frames, world, alloc, p)?;
            Ok(done)
        }
        ObjectOp::Enter => {
            let done = enter_monitor(frames, world, alloc, p)?;
            Ok(done)
        }
        ObjectOp::Exit => {
            let done = exit_monitor(frames, world, alloc, p)?;
            Ok(done)
        }
    }
}

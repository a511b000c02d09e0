//! An object that is thrown in the running frame, whose method has this code (JVMS 2.10).

ghost use Rattle.std.specs.Prelude.{IfOk, OnOk};
ghost use Rattle.jvm_world.specs.View.{IsWorldOf, IsKept};
ghost use Rattle.jvm_act.specs.Acts.{RunsCode, throwing_row};
ghost use Rattle.jvm_act.specs.Laws.{HasRoomToLand};
ghost use Rattle.jvm_act.specs.Standing.{AreFramesOf};
ghost use Rattle.jvm_act.specs.Turned.{Turned};

use crate::methods::MethodCode;
use class_model::Memory;
use class_table::Program;
use jvm_frames::Frames;
use jvm_unwind::{Turn, unwind};
use jvm_world::World;
use std::alloc::Global;

/// One step of an object that is thrown: a handler of the method is entered, or the running frame
/// is popped.
#[tactic(auto, using(crate::proofs::Handled::handled))]
pub fn unwind_frame(
    frames: &mut Frames,
    world: &mut World,
    alloc: Global,
    p: &Program,
    method: &MethodCode,
    object: u32,
) -> Result<Turn, Memory>
    requires world { IsWorldOf p.now world.old }
    requires frames { AreFramesOf p.now frames.old }
    requires runs { RunsCode p.now method.now frames.old }
    requires room { HasRoomToLand method.now }
    ensures row { IfOk result (λ t. Turned p.now (throwing_row p.now object) t
        frames.old frames.new world.old world.new) }
    ensures frames { OnOk result (AreFramesOf p.now frames.new) }
    ensures kept { OnOk result (IsKept p.now world.old world.new) }
{
    let turn = unwind(frames, world, alloc, p, &method.handlers, object)?;
    Ok(turn)
}

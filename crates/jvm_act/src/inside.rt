//! The instructions by which the running frame stays where it is, or goes on.

ghost use Rattle.std.specs.Prelude.{IfOk, IfSome, OnOk};
ghost use Rattle.jvm_link.specs.References.{IsTableOf};
ghost use Rattle.jvm_world.specs.View.{IsWorldOf, IsKept};
ghost use Rattle.jvm_act.specs.Acts.{RunsWholeAs};
ghost use Rattle.jvm_act.specs.Asking.{AsksOf};
ghost use Rattle.jvm_act.specs.Groups.{IsFrameOf};
ghost use Rattle.jvm_act.specs.Methods.{meaning};
ghost use Rattle.jvm_act.specs.Standing.{HasNext};

use crate::classes::take_class;
use crate::elements::take_element;
use crate::groups::FrameOp;
use crate::methods::MethodCode;
use crate::objects::take_object;
use crate::switches::take_switch;
use class_model::{ClassId, Memory};
use class_table::Program;
use jvm_frames::Frames;
use jvm_link::References;
use jvm_rows::{Effect, act_alone};
use jvm_state::Op;
use jvm_world::World;
use std::alloc::Global;

/// Executes an instruction of a method by its row, where that leaves the running frame or goes on
/// in it.
#[tactic(auto, using(crate::proofs::Rows::alone, crate::proofs::Rows::means_whole, crate::proofs::Rows::means_runs, crate::proofs::Rows::unlinked))]
pub fn act_inside(
    frames: &mut Frames,
    world: &mut World,
    alloc: Global,
    p: &Program,
    references: &mut References,
    class: ClassId,
    method: &MethodCode,
    op: Op,
    group: FrameOp,
) -> Result<Effect, Memory>
    requires world { IsWorldOf p.now world.old }
    requires table { IsTableOf p.now references.old }
    requires next { IfSome frames.old.frame HasNext }
    requires few { AsksOf group world.old }
    requires group { IsFrameOf op group }
    ensures row { IfOk result (λ e. RunsWholeAs p.now (meaning p.now class.0 method.now op) e
        frames.old frames.new world.old world.new) }
    ensures kept { OnOk result (IsKept p.now world.old world.new) }
    ensures table { IsTableOf p.now references.new }
{
    match group {
        FrameOp::Alone => {
            let done = act_alone(frames, world, alloc, p, op, method.code.longs.as_slice())?;
            Ok(done)
        }
        FrameOp::Switch(switch) => {
            let done = take_switch(frames, method, switch);
            Ok(done)
        }
        FrameOp::Element(element) => {
            let done = take_element(frames, world, alloc, p, element)?;
            Ok(done)
        }
        FrameOp::Object(object) => {
            let done = take_object(frames, world, alloc, p, object)?;
            Ok(done)
        }
        FrameOp::Class(named) => {
            let done = take_class(frames, world, alloc, p, references, class, named)?;
            Ok(done)
        }
        FrameOp::Unlinked => Ok(Effect::NoRow),
    }
}

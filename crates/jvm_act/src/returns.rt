//! Returns, by what the method of the running frame states.

ghost use Rattle.std.specs.Prelude.{IfOk, OnOk};
ghost use Rattle.jvm_world.specs.View.{IsWorldOf, IsKept};
ghost use Rattle.jvm_act.specs.Acts.{TurnsIn};
ghost use Rattle.jvm_act.specs.Groups.{return_in};
ghost use Rattle.jvm_act.specs.Standing.{AreFramesOf};

use crate::groups::ReturnOp;
use crate::methods::MethodCode;
use class_model::Memory;
use class_table::Program;
use jvm_calls::{return_int, return_long, return_plain, return_reference};
use jvm_frames::Frames;
use jvm_unwind::Turn;
use jvm_world::World;

/// Returns from the running frame, which is of this method.
#[tactic(auto, using(crate::proofs::Returned::has_caller, crate::proofs::Returned::within, crate::proofs::Returned::int_turned, crate::proofs::Returned::long_turned, crate::proofs::Returned::reference_turned, crate::proofs::Returned::plain_turned, crate::proofs::Framed::returns_keep_frames))]
#[inline(always)]
pub fn take_return(
    frames: &mut Frames,
    world: &mut World,
    p: &Program,
    method: &MethodCode,
    op: ReturnOp,
) -> Result<Turn, Memory>
    requires world { IsWorldOf p.now world.old }
    requires frames { AreFramesOf p.now frames.old }
    ensures row { IfOk result (λ t. TurnsIn p.now method.now (return_in op) t
        frames.old frames.new world.old world.new) }
    ensures frames { OnOk result (AreFramesOf p.now frames.new) }
    ensures kept { OnOk result (IsKept p.now world.old world.new) }
{
    match op {
        ReturnOp::Int => {
            let turn = return_int(frames, world, p, &method.result);
            Ok(turn)
        }
        ReturnOp::Long => {
            let turn = return_long(frames, world, p, &method.result);
            Ok(turn)
        }
        ReturnOp::Reference => {
            let turn = return_reference(frames, world, p, &method.result);
            Ok(turn)
        }
        ReturnOp::Plain => {
            let initializes = method.handlers.initializes;
            let turn = return_plain(frames, world, p, &method.result, initializes)?;
            Ok(turn)
        }
    }
}

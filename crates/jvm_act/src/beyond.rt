//! Instructions that touch more than the running frame, by their rows and with no way around.

ghost use Rattle.std.specs.Prelude.{◌≡◌, true, IfOk, IfSome, IfNone, OnOk, IsSomeAnd};
ghost use Rattle.class_table.specs.Faults.{HasRightKinds};
ghost use Rattle.class_table.specs.Table.{look};
ghost use Rattle.jvm_members.specs.Layouts.{AreLayouts};
ghost use Rattle.jvm_members.specs.Slots.{AreSlots};
ghost use Rattle.jvm_natives.specs.Natives.{AreNatives};
ghost use Rattle.jvm_receivers.specs.Objects.{AreLookups};
ghost use Rattle.jvm_world.specs.declared.world.World.{World};
ghost use Rattle.jvm_world.specs.View.{IsWorldOf, IsKept};
ghost use Rattle.jvm_act.specs.Acts.{StandsAtOp, acting};
ghost use Rattle.jvm_act.specs.Asking.{AsksOf, AsksOfObject};
ghost use Rattle.jvm_act.specs.Standing.{AreFramesOf};
ghost use Rattle.jvm_act.specs.Turned.{Turned};

use crate::acting::turn_inside;
use crate::calls::take_call;
use crate::groups::{FrameOp, Group, ObjectOp, group_of};
use crate::members::take_member;
use crate::methods::MethodCode;
use crate::returns::take_return;
use class_family::Walker;
use class_model::{ClassId, Memory};
use class_table::Program;
use jvm_frames::Frames;
use jvm_members::{Layouts, Slots};
use jvm_natives::Natives;
use jvm_receivers::Lookups;
use jvm_state::Op;
use jvm_unwind::Turn;
use jvm_world::World;
use std::alloc::Global;

// Whether an instruction is no `monitorenter`, which alone asks anything of the world.
fn asks_no_object(op: ObjectOp) -> bool
    ensures { result ≡ true → (w : World) → AsksOfObject op w }
{
    match op {
        ObjectOp::Length => true,
        ObjectOp::Throw => true,
        ObjectOp::Enter => false,
        ObjectOp::Exit => true,
    }
}

// Whether an instruction by which the running frame stays or goes on touches more than that frame,
// and asks nothing of the world.
fn goes_beyond(group: FrameOp) -> bool
    ensures { result ≡ true → (w : World) → AsksOf group w }
{
    match group {
        FrameOp::Alone => false,
        FrameOp::Switch(_) => true,
        FrameOp::Element(_) => true,
        FrameOp::Object(object) => asks_no_object(object),
        FrameOp::Class(_) => true,
        FrameOp::Unlinked => false,
    }
}

/// Executes the instruction at which the running frame stands, whose method has this code. `Some`
/// is the turn of its row, with a call done; `None` says that frames and world are as they were.
///
/// For which instructions it answers `None` is no promise. As it stands, these are those that touch
/// the frame alone, those that name nothing, and `monitorenter`.
#[tactic(auto, using(crate::proofs::Executed::op_next, crate::proofs::Executed::op_returns, crate::proofs::Further::stands_in, crate::proofs::Further::turned))]
pub fn act_beyond(
    frames: &mut Frames,
    world: &mut World,
    alloc: Global,
    p: &Program,
    natives: &Natives,
    lookups: &mut Lookups,
    slots: &mut Slots,
    layouts: &mut Layouts,
    walker: &mut Walker,
    class: ClassId,
    method: &MethodCode,
    op: Op,
) -> Result<Option<Turn>, Memory>
    requires world { IsWorldOf p.now world.old }
    requires kinds { HasRightKinds (look p.now) }
    requires natives { AreNatives p.now natives.now }
    requires lookups { AreLookups p.now lookups.old }
    requires slots { AreSlots p.now slots.old }
    requires layouts { AreLayouts p.now layouts.old }
    requires frames { AreFramesOf p.now frames.old }
    requires stands { IsSomeAnd frames.old.frame (StandsAtOp p.now class.0 method.now op) }
    ensures row { IfOk result (λ o. IfSome o (λ t. Turned p.now (acting p.now) t
        frames.old frames.new world.old world.new)) }
    ensures left { IfOk result (λ o. IfNone o (frames.new ≡ frames.old)) }
    ensures still { IfOk result (λ o. IfNone o (world.new ≡ world.old)) }
    ensures frames { OnOk result (AreFramesOf p.now frames.new) }
    ensures kept { OnOk result (IsKept p.now world.old world.new) }
    ensures lookups { AreLookups p.now lookups.new }
    ensures slots { AreSlots p.now slots.new }
    ensures layouts { AreLayouts p.now layouts.new }
{
    match group_of(op) {
        Group::Frame(inside) => {
            if !goes_beyond(inside) {
                return Ok(None);
            }
            let turn = turn_inside(
                frames,
                world,
                alloc,
                p,
                &mut lookups.references,
                class,
                method,
                op,
                inside,
            )?;
            Ok(Some(turn))
        }
        Group::Return(kind) => {
            let turn = take_return(frames, world, p, method, kind)?;
            Ok(Some(turn))
        }
        Group::Member(member) => {
            let turn = take_member(
                frames,
                world,
                alloc,
                p,
                &mut lookups.references,
                slots,
                layouts,
                walker,
                class,
                member,
            )?;
            Ok(Some(turn))
        }
        Group::Call(how, index) => {
            let turn = take_call(
                frames, world, alloc, p, lookups, natives, walker, class, how, index,
            )?;
            Ok(Some(turn))
        }
    }
}

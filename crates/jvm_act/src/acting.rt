//! The instruction at which the running frame stands, by its row.

ghost use Rattle.std.specs.Prelude.{◌≡◌, ℕ, ◌+◌, ◌<◌, ◌^◌, Some, None, slice_get, IfOk, OnOk, IfSome, IfNone, IsSomeAnd};
ghost use Rattle.class_table.specs.Faults.{HasRightKinds};
ghost use Rattle.class_table.specs.Table.{look};
ghost use Rattle.jvm_members.specs.Layouts.{AreLayouts};
ghost use Rattle.jvm_members.specs.Slots.{AreSlots};
ghost use Rattle.jvm_link.specs.References.{IsTableOf};
ghost use Rattle.jvm_world.specs.Holding.{opened};
ghost use Rattle.jvm_world.specs.View.{IsWorldOf, IsKept};
ghost use Rattle.jvm_act.specs.Acts.{TurnsIn, ActsTo, RunsCode, StandsAtOp};
ghost use Rattle.jvm_act.specs.Asking.{AsksOf};
ghost use Rattle.jvm_act.specs.Groups.{IsFrameOf};
ghost use Rattle.jvm_act.specs.Methods.{meaning};
ghost use Rattle.jvm_act.specs.Standing.{HasNext, AreFramesOf};

use crate::groups::{CallUse, FrameOp, Group, group_of};
use crate::inside::act_inside;
use crate::members::take_member;
use crate::methods::MethodCode;
use crate::returns::take_return;
use crate::turning::turn_of;
use class_family::Walker;
use class_model::{ClassId, Memory};
use class_table::Program;
use jvm_frames::Frames;
use jvm_link::References;
use jvm_members::{Layouts, Slots};
use jvm_state::Op;
use jvm_unwind::Turn;
use jvm_world::World;
use std::alloc::Global;

/// What the instruction of the running frame comes to.
#[derive(Clone, Copy)]
pub enum Acted {
    /// It is done.
    Turned(Turn),
    /// This call is left, of the method that the frame's class names at an index.
    Call(ClassId, CallUse, u32),
}

/// The instruction at a place, which has a next number.
pub fn op_at(ops: &[Op], at: usize) -> Option<Op>
    ensures some { IfSome result (λ op. slice_get ops.now at ≡ Some op) }
    ensures next { IfSome result (λ op. at + 1 < 2 ^ 64) }
    ensures none { IfNone result (slice_get ops.now at ≡ None) }
{
    if at >= ops.len() {
        return None;
    }
    ops.get(at).copied()
}

/// The turn of an instruction by which the running frame stays where it is, or goes on.
#[tactic(auto, using(crate::proofs::Executed::inside_turned, crate::proofs::Executed::inside_keeps, crate::proofs::Executed::has_next))]
pub fn turn_inside(
    frames: &mut Frames,
    world: &mut World,
    alloc: Global,
    p: &Program,
    references: &mut References,
    class: ClassId,
    method: &MethodCode,
    op: Op,
    group: FrameOp,
) -> Result<Turn, Memory>
    requires world { IsWorldOf p.now world.old }
    requires table { IsTableOf p.now references.old }
    requires frames { AreFramesOf p.now frames.old }
    requires runs { IsSomeAnd frames.old.frame HasNext }
    requires few { AsksOf group world.old }
    requires group { IsFrameOf op group }
    ensures row { IfOk result (λ t. TurnsIn p.now method.now (meaning p.now class.0 method.now op) t
        frames.old frames.new world.old world.new) }
    ensures frames { OnOk result (AreFramesOf p.now frames.new) }
    ensures kept { OnOk result (IsKept p.now world.old world.new) }
    ensures table { IsTableOf p.now references.new }
{
    let done = act_inside(
        frames, world, alloc, p, references, class, method, op, group,
    )?;
    let turn = turn_of(done);
    Ok(turn)
}

// The instruction of a method at which the running frame stands.
#[tactic(auto, using(crate::proofs::Executed::done, crate::proofs::Executed::left_call, crate::proofs::Executed::op_next, crate::proofs::Executed::op_returns, crate::proofs::Asked::asks_few))]
fn act_op(
    frames: &mut Frames,
    world: &mut World,
    alloc: Global,
    p: &Program,
    references: &mut References,
    slots: &mut Slots,
    layouts: &mut Layouts,
    walker: &mut Walker,
    class: ClassId,
    method: &MethodCode,
    op: Op,
) -> Result<Acted, Memory>
    requires world { IsWorldOf p.now world.old }
    requires kinds { HasRightKinds (look p.now) }
    requires table { IsTableOf p.now references.old }
    requires slots { AreSlots p.now slots.old }
    requires layouts { AreLayouts p.now layouts.old }
    requires frames { AreFramesOf p.now frames.old }
    requires stands { IsSomeAnd frames.old.frame (StandsAtOp p.now class.0 method.now op) }
    requires few { (x : ℕ) → opened x world.old.monitors + 1 < 2 ^ 64 }
    ensures acts { IfOk result (λ a. ActsTo p.now method.now a
        frames.old frames.new world.old world.new) }
    ensures frames { OnOk result (AreFramesOf p.now frames.new) }
    ensures kept { OnOk result (IsKept p.now world.old world.new) }
    ensures table { IsTableOf p.now references.new }
    ensures slots { AreSlots p.now slots.new }
    ensures layouts { AreLayouts p.now layouts.new }
{
    let group = group_of(op);
    match group {
        Group::Frame(inside) => {
            let turn = turn_inside(
                frames, world, alloc, p, references, class, method, op, inside,
            )?;
            Ok(Acted::Turned(turn))
        }
        Group::Return(kind) => {
            let turn = take_return(frames, world, p, method, kind)?;
            Ok(Acted::Turned(turn))
        }
        Group::Member(member) => {
            let turn = take_member(
                frames, world, alloc, p, references, slots, layouts, walker, class, member,
            )?;
            Ok(Acted::Turned(turn))
        }
        Group::Call(how, index) => Ok(Acted::Call(class, how, index)),
    }
}

/// Executes the instruction at which the running frame stands, whose method has this code. A call
/// of a method is left.
#[tactic(auto, using(crate::proofs::Executed::past_end, crate::proofs::Executed::stands_at, crate::proofs::Executed::kept_same))]
pub fn act(
    frames: &mut Frames,
    world: &mut World,
    alloc: Global,
    p: &Program,
    references: &mut References,
    slots: &mut Slots,
    layouts: &mut Layouts,
    walker: &mut Walker,
    method: &MethodCode,
) -> Result<Acted, Memory>
    requires world { IsWorldOf p.now world.old }
    requires kinds { HasRightKinds (look p.now) }
    requires table { IsTableOf p.now references.old }
    requires slots { AreSlots p.now slots.old }
    requires layouts { AreLayouts p.now layouts.old }
    requires frames { AreFramesOf p.now frames.old }
    requires runs { RunsCode p.now method.now frames.old }
    requires few { (x : ℕ) → opened x world.old.monitors + 1 < 2 ^ 64 }
    ensures acts { IfOk result (λ a. ActsTo p.now method.now a
        frames.old frames.new world.old world.new) }
    ensures frames { OnOk result (AreFramesOf p.now frames.new) }
    ensures kept { OnOk result (IsKept p.now world.old world.new) }
    ensures table { IsTableOf p.now references.new }
    ensures slots { AreSlots p.now slots.new }
    ensures layouts { AreLayouts p.now layouts.new }
{
    let Some(place) = frames.place() else {
        return Ok(Acted::Turned(Turn::NoRow));
    };
    let Some(op) = op_at(method.code.ops.as_slice(), place.at) else {
        return Ok(Acted::Turned(Turn::NoRow));
    };
    let acted = act_op(
        frames,
        world,
        alloc,
        p,
        references,
        slots,
        layouts,
        walker,
        place.class,
        method,
        op,
    )?;
    Ok(acted)
}

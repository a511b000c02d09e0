//! The instruction at which the running frame stands, whatever it is.

ghost use Rattle.std.specs.Prelude.{IfOk, OnOk};
ghost use Rattle.class_table.specs.Faults.{HasRightKinds};
ghost use Rattle.class_table.specs.Table.{look};
ghost use Rattle.jvm_lines.specs.Below.{AreLayouts};
ghost use Rattle.jvm_lines.specs.Below.{AreSlots};
ghost use Rattle.jvm_lines.specs.Below.{AreNatives};
ghost use Rattle.jvm_lines.specs.Below.{AreLookups};
ghost use Rattle.jvm_world.specs.View.{IsWorldOf, IsKept};
ghost use Rattle.jvm_lines.specs.Below.{RunsCode, acting};
ghost use Rattle.jvm_lines.specs.Below.{AreFramesOf};
ghost use Rattle.jvm_lines.specs.Below.{Turned};
ghost use Rattle.jvm_step.specs.Machines.{HasFewMonitors};

use class_family::Walker;
use class_model::Memory;
use class_table::Program;
use jvm_frames::Frames;
use jvm_lines::{Acted, Layouts, Lookups, MethodCode, Natives, Slots, Turn, act, take_call};
use jvm_world::World;
use std::alloc::Global;

/// Executes the instruction at which the running frame stands, whose method has this code.
#[tactic(auto, using(crate::proofs::Leaving::stands_in, crate::proofs::Leaving::left_done, crate::proofs::Leaving::kept_on))]
pub fn take_instruction(
    frames: &mut Frames,
    world: &mut World,
    alloc: Global,
    p: &Program,
    method: &MethodCode,
    natives: &Natives,
    lookups: &mut Lookups,
    slots: &mut Slots,
    layouts: &mut Layouts,
    walker: &mut Walker,
) -> Result<Turn, Memory>
    requires world { IsWorldOf p.now world.old }
    requires frames { AreFramesOf p.now frames.old }
    requires runs { RunsCode p.now method.now frames.old }
    requires kinds { HasRightKinds (look p.now) }
    requires natives { AreNatives p.now natives.now }
    requires lookups { AreLookups p.now lookups.old }
    requires slots { AreSlots p.now slots.old }
    requires layouts { AreLayouts p.now layouts.old }
    requires few { HasFewMonitors world.old }
    ensures row { IfOk result (λ t. Turned p.now (acting p.now) t
        frames.old frames.new world.old world.new) }
    ensures frames { OnOk result (AreFramesOf p.now frames.new) }
    ensures kept { OnOk result (IsKept p.now world.old world.new) }
    ensures lookups { AreLookups p.now lookups.new }
    ensures slots { AreSlots p.now slots.new }
    ensures layouts { AreLayouts p.now layouts.new }
{
    let acted = act(
        frames,
        world,
        alloc,
        p,
        &mut lookups.references,
        slots,
        layouts,
        walker,
        method,
    )?;
    match acted {
        Acted::Turned(turn) => Ok(turn),
        Acted::Call(class, how, index) => {
            let turn = take_call(
                frames, world, alloc, p, lookups, natives, walker, class, how, index,
            )?;
            Ok(turn)
        }
    }
}

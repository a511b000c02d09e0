//! A class is made ready before its use (JVMS 5.5).

ghost use Rattle.std.specs.Prelude.{◌<◌, length, IfOk, OnOk};
ghost use Rattle.class_table.specs.Faults.{HasRightKinds};
ghost use Rattle.class_table.specs.Table.{look};
ghost use Rattle.jvm_world.specs.View.{IsWorldOf, IsKept};
ghost use Rattle.jvm_initialization.specs.Begins.{AreWhole, StaysOrBegins};
ghost use Rattle.jvm_initialization.specs.Needs.{Use, ReadiesTo};

use crate::beginning::begin;
use crate::need::{Need, need_for};
use class_family::Walker;
use class_model::{ClassId, Memory};
use class_table::Program;
use jvm_frames::Frames;
use jvm_unwind::Turn;
use jvm_world::World;
use program_rules::Fault;
use std::alloc::Global;

/// What comes before the use of a class.
#[derive(Clone, Copy)]
pub enum Readied {
    /// Nothing: what uses the class goes on.
    Ready,
    /// This turn was made. What uses the class is still to come, or doesn't.
    Turned(Turn),
}

/// Makes a class ready for its use, once it is consulted: where a class has to begin before it, or
/// it itself has to, that one is begun, and the instruction stays, to be executed again. Where an
/// initialisation failed NoClassDefFoundError is thrown.
#[tactic(auto, using(crate::proofs::Beginnings::stays_on))]
pub fn make_ready(
    frames: &mut Frames,
    world: &mut World,
    alloc: Global,
    p: &Program,
    walker: &mut Walker,
    class: ClassId,
) -> Result<Readied, Memory>
    requires world { IsWorldOf p.now world.old }
    requires kinds { HasRightKinds (look p.now) }
    requires class { class.0 < length p.now }
    requires whole { AreWhole frames.old }
    ensures ready { IfOk result (λ r. (go : Use) →
        ReadiesTo p.now world.old.limits class.0 r frames.old frames.new world.old world.new go) }
    ensures frames { OnOk result (StaysOrBegins p.now frames.old frames.new) }
    ensures kept { OnOk result (IsKept p.now world.old world.new) }
{
    world.consult(p, class)?;
    let need = need_for(world, p, walker, class)?;
    match need {
        Need::Ready => Ok(Readied::Ready),
        Need::Begins(first) => {
            let thrown = begin(frames, world, alloc, p, first)?;
            let turn = Turn::of(thrown);
            Ok(Readied::Turned(turn))
        }
        Need::Failing => {
            let failed = world.throw(alloc, p, Fault::NoClassDefFoundError)?;
            let turn = Turn::of(failed);
            Ok(Readied::Turned(turn))
        }
    }
}

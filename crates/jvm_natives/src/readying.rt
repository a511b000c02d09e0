//! A static method is called, once its class is ready.

ghost use Rattle.std.specs.Prelude.{◌≡◌, ◌+◌, ◌<◌, ◌^◌, IfOk, IfSome, OnOk};
ghost use Rattle.program_rules.specs.Resolution.{MethodAt};
ghost use Rattle.class_link.specs.View.{method_ref_of};
ghost use Rattle.class_table.specs.Faults.{HasRightKinds};
ghost use Rattle.class_table.specs.Table.{look};
ghost use Rattle.jvm_world.specs.View.{IsWorldOf, IsKept};
ghost use Rattle.jvm_initialization.specs.Begins.{AreWhole};
ghost use Rattle.jvm_link.specs.declared.site.Callee.TheVariants.{Method};
ghost use Rattle.jvm_link.specs.Answers.{IsCallee};
ghost use Rattle.jvm_invokes.specs.declared.invoked.Invoked.TheVariants.{Turned};
ghost use Rattle.jvm_invokes.specs.Calls.{IsSite, calls_args};
ghost use Rattle.jvm_invokes.specs.Invoked.{Invokes, calls_ready};
ghost use Rattle.jvm_natives.specs.Completed.{GoesOnOrEnters};
ghost use Rattle.jvm_natives.specs.Natives.{AreNatives};

use crate::calling::call_args;
use crate::natives::Natives;
use class_family::Walker;
use class_link::MethodRef;
use class_model::Memory;
use class_table::Program;
use jvm_frames::Frames;
use jvm_initialization::{Readied, make_ready};
use jvm_link::Site;
use jvm_unwind::Turn;
use jvm_world::World;
use std::alloc::Global;

// A method of a class is called with the arguments that a reference states.
fn call_stated(
    frames: &mut Frames,
    world: &mut World,
    alloc: Global,
    p: &Program,
    natives: &Natives,
    reference: &MethodRef,
    site: Site,
) -> Result<Turn, Memory>
    requires world { IsWorldOf p.now world.old }
    requires natives { AreNatives p.now natives.now }
    requires next { IfSome frames.old.frame (λ f. f.at + 1 < 2 ^ 64) }
    requires site { IsSite p.now site }
    ensures row { IfOk result (λ t. (m : MethodAt) → IsCallee p.now m (Method site) →
        Invokes p.now (method_ref_of reference.now)
        (calls_args p.now (method_ref_of reference.now).args m) (Turned t)
        frames.old frames.new world.old world.new) }
    ensures frames { OnOk result (GoesOnOrEnters p.now frames.old frames.new) }
    ensures kept { OnOk result (IsKept p.now world.old world.new) }
{
    let kinds = reference.args.as_slice();
    let turn = call_args(frames, world, alloc, p, natives, kinds, site)?;
    Ok(turn)
}

/// The class of a static method is made ready, and then the method is called with the arguments
/// that a reference states.
#[tactic(auto, using(crate::proofs::Readied::ready_call, crate::proofs::Readied::turned_call, crate::proofs::Readied::begun_frames, crate::proofs::Readied::frames_after, crate::proofs::Readied::next_after))]
pub fn call_readied(
    frames: &mut Frames,
    world: &mut World,
    alloc: Global,
    p: &Program,
    natives: &Natives,
    walker: &mut Walker,
    reference: &MethodRef,
    site: Site,
) -> Result<Turn, Memory>
    requires world { IsWorldOf p.now world.old }
    requires kinds { HasRightKinds (look p.now) }
    requires natives { AreNatives p.now natives.now }
    requires whole { AreWhole frames.old }
    requires next { IfSome frames.old.frame (λ f. f.at + 1 < 2 ^ 64) }
    requires site { IsSite p.now site }
    ensures row { IfOk result (λ t. (m : MethodAt) → IsCallee p.now m (Method site) →
        Invokes p.now (method_ref_of reference.now)
        (calls_ready p.now (method_ref_of reference.now) m) (Turned t)
        frames.old frames.new world.old world.new) }
    ensures frames { OnOk result (GoesOnOrEnters p.now frames.old frames.new) }
    ensures kept { OnOk result (IsKept p.now world.old world.new) }
{
    let readied = make_ready(frames, world, alloc, p, walker, site.class)?;
    match readied {
        Readied::Turned(turn) => Ok(turn),
        Readied::Ready => {
            let turn = call_stated(frames, world, alloc, p, natives, reference, site)?;
            Ok(turn)
        }
    }
}

//! What is left of a row that calls a method is done.

ghost use Rattle.std.specs.Prelude.{◌≡◌, ◌+◌, ◌<◌, ◌^◌, IfOk, IfSome, OnOk};
ghost use Rattle.program_rules.specs.Instructions.{MethodRef as Reference};
ghost use Rattle.class_link.specs.View.{method_ref_of};
ghost use Rattle.class_table.specs.Faults.{HasRightKinds};
ghost use Rattle.class_table.specs.Table.{look};
ghost use Rattle.jvm_world.specs.View.{IsWorldOf, IsKept};
ghost use Rattle.jvm_initialization.specs.Begins.{AreWhole};
ghost use Rattle.jvm_invokes.specs.declared.invoked.Invoked.TheVariants.{Copies, Native, Readies};
ghost use Rattle.jvm_natives.specs.Completed.{Completes, GoesOnOrEnters};
ghost use Rattle.jvm_natives.specs.Natives.{AreNatives};

use crate::arguments::args_of;
use crate::calling::call_site;
use crate::cloning::clone_array;
use crate::natives::Natives;
use crate::readying::call_readied;
use crate::sites::is_site;
use class_family::Walker;
use class_link::MethodRef;
use class_model::Memory;
use class_table::Program;
use jvm_frames::{Args, Frames};
use jvm_invokes::Invoked;
use jvm_link::Site;
use jvm_unwind::Turn;
use jvm_world::World;
use std::alloc::Global;

// A native method that was left is called.
#[tactic(auto, using(crate::proofs::Left::native_called, crate::proofs::Left::native_missing, crate::proofs::Left::native_nowhere, crate::proofs::Called::stays))]
fn complete_native(
    frames: &mut Frames,
    world: &mut World,
    alloc: Global,
    p: &Program,
    natives: &Natives,
    site: Site,
    left: Args,
) -> Result<Turn, Memory>
    requires world { IsWorldOf p.now world.old }
    requires natives { AreNatives p.now natives.now }
    requires next { IfSome frames.old.frame (λ f. f.at + 1 < 2 ^ 64) }
    ensures row { IfOk result (λ t. (r : Reference) →
        Completes p.now r (Native site left) t frames.old frames.new world.old world.new) }
    ensures frames { OnOk result (GoesOnOrEnters p.now frames.old frames.new) }
    ensures kept { OnOk result (IsKept p.now world.old world.new) }
{
    if !is_site(p, site) {
        return Ok(Turn::NoRow);
    }
    match args_of(frames, left.count) {
        Some(args) => {
            let turn = call_site(frames, world, alloc, p, natives, site, args)?;
            Ok(turn)
        }
        None => Ok(Turn::NoRow),
    }
}

// The `clone` of an array that was left is called.
#[tactic(auto, using(crate::proofs::Left::clone_called, crate::proofs::Left::clone_missing, crate::proofs::Called::stays, crate::proofs::Called::gone_on))]
fn complete_clone(
    frames: &mut Frames,
    world: &mut World,
    alloc: Global,
    p: &Program,
    left: Args,
) -> Result<Turn, Memory>
    requires world { IsWorldOf p.now world.old }
    requires next { IfSome frames.old.frame (λ f. f.at + 1 < 2 ^ 64) }
    ensures row { IfOk result (λ t. (r : Reference) →
        Completes p.now r (Copies left) t frames.old frames.new world.old world.new) }
    ensures frames { OnOk result (GoesOnOrEnters p.now frames.old frames.new) }
    ensures kept { OnOk result (IsKept p.now world.old world.new) }
{
    match args_of(frames, left.count) {
        Some(args) => {
            let turn = clone_array(frames, world, alloc, p, args)?;
            Ok(turn)
        }
        None => Ok(Turn::NoRow),
    }
}

// A static method that was left is called, once its class is ready.
#[tactic(auto, using(crate::proofs::Left::readied_called, crate::proofs::Left::readied_nowhere, crate::proofs::Called::stays))]
fn complete_static(
    frames: &mut Frames,
    world: &mut World,
    alloc: Global,
    p: &Program,
    natives: &Natives,
    walker: &mut Walker,
    reference: &MethodRef,
    site: Site,
) -> Result<Turn, Memory>
    requires world { IsWorldOf p.now world.old }
    requires kinds { HasRightKinds (look p.now) }
    requires natives { AreNatives p.now natives.now }
    requires whole { AreWhole frames.old }
    requires next { IfSome frames.old.frame (λ f. f.at + 1 < 2 ^ 64) }
    ensures row { IfOk result (λ t.
        Completes p.now (method_ref_of reference.now) (Readies site) t
        frames.old frames.new world.old world.new) }
    ensures frames { OnOk result (GoesOnOrEnters p.now frames.old frames.new) }
    ensures kept { OnOk result (IsKept p.now world.old world.new) }
{
    if !is_site(p, site) {
        return Ok(Turn::NoRow);
    }
    let turn = call_readied(frames, world, alloc, p, natives, walker, reference, site)?;
    Ok(turn)
}

/// Does what was left of a row that calls a method by this reference: a native method is called, an
/// array is copied, or the class of a static method is made ready and the method called.
#[tactic(auto, using(crate::proofs::Left::turned_of, crate::proofs::Left::left_is, crate::proofs::Called::stays))]
pub fn complete(
    frames: &mut Frames,
    world: &mut World,
    alloc: Global,
    p: &Program,
    natives: &Natives,
    walker: &mut Walker,
    reference: &MethodRef,
    left: Invoked,
) -> Result<Turn, Memory>
    requires world { IsWorldOf p.now world.old }
    requires kinds { HasRightKinds (look p.now) }
    requires natives { AreNatives p.now natives.now }
    requires whole { AreWhole frames.old }
    requires next { IfSome frames.old.frame (λ f. f.at + 1 < 2 ^ 64) }
    ensures row { IfOk result (λ t. Completes p.now (method_ref_of reference.now) left t
        frames.old frames.new world.old world.new) }
    ensures frames { OnOk result (GoesOnOrEnters p.now frames.old frames.new) }
    ensures kept { OnOk result (IsKept p.now world.old world.new) }
{
    match left {
        Invoked::Turned(turn) => Ok(turn),
        Invoked::Readies(site) => {
            let turn = complete_static(frames, world, alloc, p, natives, walker, reference, site)?;
            Ok(turn)
        }
        Invoked::Native(site, args) => {
            let turn = complete_native(frames, world, alloc, p, natives, site, args)?;
            Ok(turn)
        }
        Invoked::Copies(args) => {
            let turn = complete_clone(frames, world, alloc, p, args)?;
            Ok(turn)
        }
    }
}

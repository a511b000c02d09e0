//! The `clone` of an array (JLS 10.7): a new array with the same elements.

ghost use Rattle.std.specs.Prelude.{◌≡◌, ◌+◌, ◌<◌, ◌≤◌, ◌^◌, [], ◌∷◌, length, Some, IfOk, IfSome, OnOk};
ghost use Rattle.program_rules.specs.Instructions.{MethodRef as Reference};
ghost use Rattle.jvm_frames.specs.Frames.{HasWords, args_on};
ghost use Rattle.jvm_world.specs.View.{IsWorldOf, IsKept};
ghost use Rattle.jvm_invokes.specs.declared.invoked.Invoked.TheVariants.{Turned};
ghost use Rattle.jvm_invokes.specs.Invoked.{Invokes};
ghost use Rattle.jvm_natives.specs.Completed.{HasGoneOn};
ghost use Rattle.jvm_natives.specs.Copies.{IsCopy, TellsCopy, copy_made, sole};
ghost use Rattle.jvm_natives.specs.Ends.{copying, making};

use crate::giving::give_made;
use class_model::{Memory, Seq};
use class_table::Program;
use jvm_frames::{Args, Frames};
use jvm_unwind::Turn;
use jvm_values::{ObjKind, Object};
use jvm_world::World;
use program_rules::Value;
use std::alloc::Global;

// The object that is the only argument, if it is one.
#[tactic(auto, using(crate::proofs::Copied::sole_at, crate::proofs::Copied::not_sole, crate::proofs::Copied::no_value))]
fn sole_argument(frames: &Frames, args: Args) -> Option<u32>
    requires { HasWords args.count args.words frames.now }
    ensures { IfSome frames.now.frame (λ f. sole (args_on args.count f.stack) ≡ result) }
{
    if args.count != 1 {
        return None;
    }
    match frames.value(0) {
        Some(v) => number_of(v),
        None => None,
    }
}

fn number_of(v: Value) -> Option<u32>
    ensures { sole (v ∷ []) ≡ result }
{
    match v {
        Value::Ref(x) => Some(x),
        Value::Int(_) => None,
        Value::Long(_) => None,
        Value::Null => None,
    }
}

// An array with the same elements, of what is an array.
fn copy_of(alloc: Global, object: &Object) -> Result<Option<Object>, Memory>
    ensures copy { IfOk result (λ c. IsCopy object.now c) }
    ensures slots { IfOk result (λ c. IfSome c (λ o. length o.values ≡ length object.now.values)) }
{
    match &object.kind {
        ObjKind::Array(kind) => {
            let kind = kind.copy()?;
            let values = Seq::from_slice(alloc, object.values.as_slice())?;
            Ok(Some(Object {
                kind: ObjKind::Array(kind),
                values,
                text: Seq::new(alloc),
                items: Seq::new(alloc),
            }))
        }
        ObjKind::Plain(_) => Ok(None),
        ObjKind::Text => Ok(None),
    }
}

// The same of the object of a number.
#[tactic(auto, using(crate::proofs::Copied::copy_at, crate::proofs::Copied::none_at, crate::proofs::Copied::few_at))]
fn copy_at(world: &World, alloc: Global, p: &Program, object: u32) -> Result<Option<Object>, Memory>
    requires { IsWorldOf p.now world.now }
    ensures copy { IfOk result (λ c. TellsCopy p.now world.now object c) }
    ensures few { IfOk result (λ c. IfSome c (λ o. length o.values < 2 ^ 31)) }
{
    let _ = p.len();
    match world.heap.get(object) {
        Some(found) => {
            let copy = copy_of(alloc, found)?;
            Ok(copy)
        }
        None => Ok(None),
    }
}

// A copy is made, and its reference pushed in the place of the arguments.
#[tactic(auto, using(crate::proofs::Copied::words_are))]
fn give_copy(
    frames: &mut Frames,
    world: &mut World,
    p: &Program,
    args: Args,
    copy: Object,
) -> Result<Turn, Memory>
    requires world { IsWorldOf p.now world.old }
    requires args { HasWords args.count args.words frames.old }
    requires next { IfSome frames.old.frame (λ f. f.at + 1 < 2 ^ 64) }
    requires few { length copy.values < 2 ^ 31 }
    ensures row { IfOk result (λ t. (r : Reference) →
        Invokes p.now r (making args.count (copy_made p.now copy)) (Turned t)
        frames.old frames.new world.old world.new) }
    ensures frames { OnOk result (HasGoneOn frames.old frames.new) }
    ensures kept { OnOk result (IsKept p.now world.old world.new) }
{
    let more = 1 + copy.values.len() as u64;
    let made = world.allocate(p, copy, more)?;
    let turn = give_made(frames, args, made);
    Ok(turn)
}

// The array of a number is copied, which is the only argument.
#[tactic(auto, using(crate::proofs::Copied::copied, crate::proofs::Copied::no_copy, crate::proofs::Given::stays))]
fn copy_array(
    frames: &mut Frames,
    world: &mut World,
    alloc: Global,
    p: &Program,
    args: Args,
    array: u32,
) -> Result<Turn, Memory>
    requires world { IsWorldOf p.now world.old }
    requires args { HasWords args.count args.words frames.old }
    requires next { IfSome frames.old.frame (λ f. f.at + 1 < 2 ^ 64) }
    requires sole { IfSome frames.old.frame (λ f.
        sole (args_on args.count f.stack) ≡ Some array) }
    ensures row { IfOk result (λ t. (r : Reference) →
        Invokes p.now r (copying args.count) (Turned t)
        frames.old frames.new world.old world.new) }
    ensures frames { OnOk result (HasGoneOn frames.old frames.new) }
    ensures kept { OnOk result (IsKept p.now world.old world.new) }
{
    let copy = copy_at(world, alloc, p, array)?;
    match copy {
        Some(copy) => {
            let turn = give_copy(frames, world, p, args, copy)?;
            Ok(turn)
        }
        None => Ok(Turn::NoRow),
    }
}

/// The array that is the only argument on the stack is copied.
#[tactic(auto, using(crate::proofs::Copied::no_array, crate::proofs::Copied::sole_is, crate::proofs::Given::stays))]
pub fn clone_array(
    frames: &mut Frames,
    world: &mut World,
    alloc: Global,
    p: &Program,
    args: Args,
) -> Result<Turn, Memory>
    requires world { IsWorldOf p.now world.old }
    requires args { HasWords args.count args.words frames.old }
    requires next { IfSome frames.old.frame (λ f. f.at + 1 < 2 ^ 64) }
    ensures row { IfOk result (λ t. (r : Reference) →
        Invokes p.now r (copying args.count) (Turned t)
        frames.old frames.new world.old world.new) }
    ensures frames { OnOk result (HasGoneOn frames.old frames.new) }
    ensures kept { OnOk result (IsKept p.now world.old world.new) }
{
    let sole = sole_argument(frames, args);
    match sole {
        Some(array) => {
            let turn = copy_array(frames, world, alloc, p, args, array)?;
            Ok(turn)
        }
        None => Ok(Turn::NoRow),
    }
}

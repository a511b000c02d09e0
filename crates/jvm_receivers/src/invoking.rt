//! The instructions that call a method on an object (JVMS 6.5): the reference is resolved, the object
//! is taken from below the arguments, and the method is called on it as the instruction says.

ghost use Rattle.std.specs.Prelude.{◌≡◌, Ok, IfOk, OnOk};
ghost use Rattle.program_rules.specs.Faults.{Found};
ghost use Rattle.program_rules.specs.Resolution.{MethodAt};
ghost use Rattle.class_link.specs.View.{method_ref_of};
ghost use Rattle.class_link.specs.declared.linked.Entry.TheVariants.{Method as MethodEntry};
ghost use Rattle.class_table.specs.Table.{look};
ghost use Rattle.jvm_frames.specs.Frames.{HasWords};
ghost use Rattle.jvm_link.specs.Answers.{IsCallee};
ghost use Rattle.jvm_link.specs.Named.{method_named};
ghost use Rattle.jvm_link.specs.References.{IsEntry, ResolvesMethodRef};
ghost use Rattle.jvm_world.specs.View.{IsWorldOf, IsKept};
ghost use Rattle.jvm_invokes.specs.Calls.{IsThere};
ghost use Rattle.jvm_invokes.specs.Invoked.{Invokes, StaysOrEnters};
ghost use Rattle.jvm_receivers.specs.Objects.{AreLookups};
ghost use Rattle.jvm_receivers.specs.Kinds.{StandsFor, invoked_row, is_barred, found_row, on_row};
ghost use Rattle.jvm_receivers.specs.Targets.{receiving, received};

use crate::interfaces::call_interface;
use crate::lookups::Lookups;
use crate::selected::flags_of;
use crate::special::call_special;
use crate::targets::{Taken, take_target};
use crate::virtuals::call_virtual;
use class_link::MethodRef;
use class_model::flags::{is_private, is_static};
use class_model::{ClassId, Memory};
use class_table::Program;
use jvm_frames::{Args, Frames};
use jvm_invokes::{Invoked, resolve, throw};
use jvm_link::Callee;
use jvm_world::World;
use program_rules::Fault;
use std::alloc::Global;

/// An instruction that calls a method on an object.
#[derive(Clone, Copy)]
pub enum Invocation {
    /// `invokespecial`.
    Special,
    /// `invokevirtual`.
    Virtual,
    /// `invokeinterface`.
    Interface,
}

// Whether an instruction throws where it finds a method with these flags.
#[inline(always)]
fn is_barred(how: Invocation, flags: u16) -> bool
    ensures { result ≡ is_barred how flags }
{
    match how {
        Invocation::Special => is_static(flags),
        Invocation::Virtual => is_static(flags),
        Invocation::Interface => is_static(flags) || is_private(flags),
    }
}

// The resolved method, or what the object selects, is called on the object.
#[inline(always)]
fn call_on(
    frames: &mut Frames,
    world: &mut World,
    alloc: Global,
    p: &Program,
    lookups: &mut Lookups,
    class: ClassId,
    index: u32,
    reference: &MethodRef,
    how: Invocation,
    callee: Callee,
    object: u32,
    args: Args,
) -> Result<Invoked, Memory>
    requires world { IsWorldOf p.now world.old }
    requires lookups { AreLookups p.now lookups.old }
    requires entry { IsEntry p.now class.0 index (MethodEntry reference.now) }
    requires stands { StandsFor p.now how class.0 frames.old }
    requires resolved { ResolvesMethodRef p.now reference.now (Ok callee) }
    requires callee { IsThere p.now callee }
    requires args { HasWords args.count args.words frames.old }
    ensures row { IfOk result (λ t. (m : MethodAt) → IsCallee p.now m callee →
        method_named (look p.now) (method_ref_of reference.now) ≡ Found m →
        Invokes p.now (method_ref_of reference.now)
        (received object args.count (on_row p.now how (method_ref_of reference.now) m)) t
        frames.old frames.new world.old world.new) }
    ensures frames { OnOk result (StaysOrEnters p.now frames.old frames.new) }
    ensures kept { OnOk result (IsKept p.now world.old world.new) }
    ensures lookups { AreLookups p.now lookups.new }
{
    match how {
        Invocation::Special => {
            let done = call_special(
                frames, world, alloc, p, lookups, class, index, reference, callee, args,
            )?;
            Ok(done)
        }
        Invocation::Virtual => {
            let done = call_virtual(
                frames, world, alloc, p, lookups, class, index, reference, callee, object, args,
            )?;
            Ok(done)
        }
        Invocation::Interface => {
            let done = call_interface(
                frames, world, alloc, p, lookups, class, index, reference, object, args,
            )?;
            Ok(done)
        }
    }
}

// A method that was found is called on the object below the arguments.
#[tactic(auto, using(jvm_invokes::proofs::Standing::stays))]
#[inline(always)]
fn call_target(
    frames: &mut Frames,
    world: &mut World,
    alloc: Global,
    p: &Program,
    lookups: &mut Lookups,
    class: ClassId,
    index: u32,
    reference: &MethodRef,
    how: Invocation,
    callee: Callee,
) -> Result<Invoked, Memory>
    requires world { IsWorldOf p.now world.old }
    requires lookups { AreLookups p.now lookups.old }
    requires entry { IsEntry p.now class.0 index (MethodEntry reference.now) }
    requires stands { StandsFor p.now how class.0 frames.old }
    requires resolved { ResolvesMethodRef p.now reference.now (Ok callee) }
    requires callee { IsThere p.now callee }
    ensures row { IfOk result (λ t. (m : MethodAt) → IsCallee p.now m callee →
        method_named (look p.now) (method_ref_of reference.now) ≡ Found m →
        Invokes p.now (method_ref_of reference.now)
        (receiving (method_ref_of reference.now)
        (on_row p.now how (method_ref_of reference.now) m)) t
        frames.old frames.new world.old world.new) }
    ensures frames { OnOk result (StaysOrEnters p.now frames.old frames.new) }
    ensures kept { OnOk result (IsKept p.now world.old world.new) }
    ensures lookups { AreLookups p.now lookups.new }
{
    let taken = take_target(frames, world, alloc, p, reference)?;
    match taken {
        Taken::Done(done) => Ok(done),
        Taken::On(object, args) => {
            let done = call_on(
                frames, world, alloc, p, lookups, class, index, reference, how, callee, object,
                args,
            )?;
            Ok(done)
        }
    }
}

// A method that was found is called, if it is one that the instruction calls.
#[tactic(auto, using(jvm_invokes::proofs::Standing::stays))]
#[inline(always)]
fn call_resolved(
    frames: &mut Frames,
    world: &mut World,
    alloc: Global,
    p: &Program,
    lookups: &mut Lookups,
    class: ClassId,
    index: u32,
    reference: &MethodRef,
    how: Invocation,
    callee: Callee,
) -> Result<Invoked, Memory>
    requires world { IsWorldOf p.now world.old }
    requires lookups { AreLookups p.now lookups.old }
    requires entry { IsEntry p.now class.0 index (MethodEntry reference.now) }
    requires stands { StandsFor p.now how class.0 frames.old }
    requires resolved { ResolvesMethodRef p.now reference.now (Ok callee) }
    requires callee { IsThere p.now callee }
    ensures row { IfOk result (λ t. (m : MethodAt) → IsCallee p.now m callee →
        method_named (look p.now) (method_ref_of reference.now) ≡ Found m →
        Invokes p.now (method_ref_of reference.now)
        (found_row p.now how (method_ref_of reference.now) m) t
        frames.old frames.new world.old world.new) }
    ensures frames { OnOk result (StaysOrEnters p.now frames.old frames.new) }
    ensures kept { OnOk result (IsKept p.now world.old world.new) }
    ensures lookups { AreLookups p.now lookups.new }
{
    let flags = flags_of(p, callee);
    if is_barred(how, flags) {
        let thrown = throw(world, alloc, p, Fault::IncompatibleClassChangeError)?;
        return Ok(thrown);
    }
    let done = call_target(
        frames, world, alloc, p, lookups, class, index, reference, how, callee,
    )?;
    Ok(done)
}

/// The instruction that calls a method on an object, of the reference at an index of a class's
/// constant pool. That is the class whose method runs, where the instruction is `invokespecial`.
#[tactic(auto, using(jvm_invokes::proofs::StaticCalls::there_by, jvm_invokes::proofs::Standing::stays))]
#[inline(always)]
pub fn invoke_on(
    frames: &mut Frames,
    world: &mut World,
    alloc: Global,
    p: &Program,
    lookups: &mut Lookups,
    class: ClassId,
    index: u32,
    reference: &MethodRef,
    how: Invocation,
) -> Result<Invoked, Memory>
    requires world { IsWorldOf p.now world.old }
    requires lookups { AreLookups p.now lookups.old }
    requires entry { IsEntry p.now class.0 index (MethodEntry reference.now) }
    requires stands { StandsFor p.now how class.0 frames.old }
    ensures row { IfOk result (λ t. Invokes p.now (method_ref_of reference.now)
        (invoked_row p.now how (method_ref_of reference.now)) t
        frames.old frames.new world.old world.new) }
    ensures frames { OnOk result (StaysOrEnters p.now frames.old frames.new) }
    ensures kept { OnOk result (IsKept p.now world.old world.new) }
    ensures lookups { AreLookups p.now lookups.new }
{
    let found = resolve(world, p, &mut lookups.references, class, index, reference)?;
    match found {
        Ok(callee) => {
            let done = call_resolved(
                frames, world, alloc, p, lookups, class, index, reference, how, callee,
            )?;
            Ok(done)
        }
        Err(fault) => {
            let thrown = throw(world, alloc, p, fault)?;
            Ok(thrown)
        }
    }
}

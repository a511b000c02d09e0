//! `invokestatic` (JVMS 6.5).

ghost use Rattle.std.specs.Prelude.{◌≡◌, ◌<◌, length, map, IfOk, OnOk};
ghost use Rattle.program_rules.specs.Instructions.{MethodRef as Reference};
ghost use Rattle.program_rules.specs.Linked.{LinkedMethod};
ghost use Rattle.program_rules.specs.Resolution.{MethodAt};
ghost use Rattle.class_link.specs.Symbols.{kind_of};
ghost use Rattle.class_link.specs.View.{method_ref_of};
ghost use Rattle.class_link.specs.declared.linked.Entry.TheVariants.{Method as MethodEntry};
ghost use Rattle.jvm_link.specs.declared.site.Callee.TheVariants.{Method};
ghost use Rattle.jvm_link.specs.Answers.{IsCallee};
ghost use Rattle.jvm_link.specs.References.{IsEntry, IsTableOf};
ghost use Rattle.jvm_world.specs.View.{IsWorldOf, IsKept};
ghost use Rattle.jvm_invokes.specs.Calls.{IsSite, IsThere, calls_args};
ghost use Rattle.jvm_invokes.specs.Heads.{IsHead, StandsAt};
ghost use Rattle.jvm_invokes.specs.Invoked.{Invokes, StaysOrEnters, calls_ready};
ghost use Rattle.jvm_invokes.specs.Rows.{IsReady, static_found, static_row};

use crate::calling::call_head;
use crate::heads::{Head, head_at};
use crate::invoked::Invoked;
use crate::ready::is_ready;
use crate::resolving::{resolve, throw};
use class_link::MethodRef;
use class_model::flags::is_static;
use class_model::{ClassId, Kind, Memory};
use class_table::Program;
use jvm_frames::Frames;
use jvm_link::{Callee, References, Site};
use jvm_unwind::Turn;
use jvm_world::World;
use program_rules::Fault;
use std::alloc::Global;

// A method of a class is called with arguments of these kinds, if they stand on the stack.
#[tactic(auto, using(crate::proofs::StaticCalls::args_call, crate::proofs::StaticCalls::args_missing, crate::proofs::Standing::stays))]
#[inline(always)]
fn call_args(
    frames: &mut Frames,
    world: &mut World,
    alloc: Global,
    p: &Program,
    kinds: &[Kind],
    site: Site,
    head: Head,
) -> Result<Invoked, Memory>
    requires world { IsWorldOf p.now world.old }
    requires site { IsSite p.now site }
    requires head { (m : LinkedMethod) → StandsAt p.now site m → IsHead site m head }
    ensures row { IfOk result (λ t. (m : MethodAt) (r : Reference) →
        IsCallee p.now m (Method site) →
        Invokes p.now r (calls_args p.now (map kind_of kinds.now) m) t
        frames.old frames.new world.old world.new) }
    ensures frames { OnOk result (StaysOrEnters p.now frames.old frames.new) }
    ensures kept { OnOk result (IsKept p.now world.old world.new) }
{
    match frames.args(kinds) {
        Some(args) => {
            let done = call_head(frames, world, alloc, p, site, head, args)?;
            Ok(done)
        }
        None => Ok(Invoked::Turned(Turn::NoRow)),
    }
}

// A static method is called, whose class is ready.
#[tactic(auto, using(crate::proofs::StaticCalls::ready_call, crate::proofs::Standing::stays))]
#[inline(always)]
fn call_ready(
    frames: &mut Frames,
    world: &mut World,
    alloc: Global,
    p: &Program,
    reference: &MethodRef,
    site: Site,
    head: Head,
) -> Result<Invoked, Memory>
    requires world { IsWorldOf p.now world.old }
    requires site { IsSite p.now site }
    requires head { (m : LinkedMethod) → StandsAt p.now site m → IsHead site m head }
    requires ready { IsReady p.now world.old site.class.0 }
    ensures row { IfOk result (λ t. (m : MethodAt) → IsCallee p.now m (Method site) →
        Invokes p.now (method_ref_of reference.now)
        (calls_ready p.now (method_ref_of reference.now) m) t
        frames.old frames.new world.old world.new) }
    ensures frames { OnOk result (StaysOrEnters p.now frames.old frames.new) }
    ensures kept { OnOk result (IsKept p.now world.old world.new) }
{
    world.consult(p, site.class)?;
    let kinds = reference.args.as_slice();
    let done = call_args(frames, world, alloc, p, kinds, site, head)?;
    Ok(done)
}

// A method of a class is called, if it is static, and once its class is ready.
#[tactic(auto, using(crate::proofs::StaticCalls::static_call, crate::proofs::StaticCalls::readies, crate::proofs::StaticCalls::not_static, crate::proofs::Standing::stays))]
#[inline(always)]
fn call_static(
    frames: &mut Frames,
    world: &mut World,
    alloc: Global,
    p: &Program,
    reference: &MethodRef,
    site: Site,
) -> Result<Invoked, Memory>
    requires world { IsWorldOf p.now world.old }
    requires site { IsSite p.now site }
    ensures row { IfOk result (λ t. (m : MethodAt) → IsCallee p.now m (Method site) →
        Invokes p.now (method_ref_of reference.now)
        (static_found p.now (method_ref_of reference.now) m) t
        frames.old frames.new world.old world.new) }
    ensures frames { OnOk result (StaysOrEnters p.now frames.old frames.new) }
    ensures kept { OnOk result (IsKept p.now world.old world.new) }
{
    let head = head_at(p, site);
    if !is_static(head.flags) {
        let thrown = throw(world, alloc, p, Fault::IncompatibleClassChangeError)?;
        return Ok(thrown);
    }
    if !is_ready(world, p, site.class) {
        return Ok(Invoked::Readies(site));
    }
    let done = call_ready(frames, world, alloc, p, reference, site, head)?;
    Ok(done)
}

// The same of what was found. An array's `clone` isn't static.
#[tactic(auto, using(crate::proofs::StaticCalls::clone_static, crate::proofs::Standing::stays))]
#[inline(always)]
fn call_found_static(
    frames: &mut Frames,
    world: &mut World,
    alloc: Global,
    p: &Program,
    reference: &MethodRef,
    callee: Callee,
) -> Result<Invoked, Memory>
    requires world { IsWorldOf p.now world.old }
    requires callee { IsThere p.now callee }
    ensures row { IfOk result (λ t. (m : MethodAt) → IsCallee p.now m callee →
        Invokes p.now (method_ref_of reference.now)
        (static_found p.now (method_ref_of reference.now) m) t
        frames.old frames.new world.old world.new) }
    ensures frames { OnOk result (StaysOrEnters p.now frames.old frames.new) }
    ensures kept { OnOk result (IsKept p.now world.old world.new) }
{
    match callee {
        Callee::Method(site) => {
            let done = call_static(frames, world, alloc, p, reference, site)?;
            Ok(done)
        }
        Callee::ArrayClone => {
            let thrown = throw(world, alloc, p, Fault::IncompatibleClassChangeError)?;
            Ok(thrown)
        }
    }
}

/// `invokestatic` of the reference at an index of a class's constant pool. Where the class of the
/// method isn't known to have begun, the call is left.
#[tactic(auto, using(crate::proofs::StaticCalls::there_by, crate::proofs::StaticCalls::invoked_static, crate::proofs::StaticCalls::failed_static, crate::proofs::Standing::stays))]
#[inline(always)]
pub fn invoke_static(
    frames: &mut Frames,
    world: &mut World,
    alloc: Global,
    p: &Program,
    references: &mut References,
    class: ClassId,
    index: u32,
    reference: &MethodRef,
) -> Result<Invoked, Memory>
    requires world { IsWorldOf p.now world.old }
    requires table { IsTableOf p.now references.old }
    requires entry { IsEntry p.now class.0 index (MethodEntry reference.now) }
    ensures row { IfOk result (λ t. Invokes p.now (method_ref_of reference.now)
        (static_row p.now (method_ref_of reference.now)) t
        frames.old frames.new world.old world.new) }
    ensures frames { OnOk result (StaysOrEnters p.now frames.old frames.new) }
    ensures kept { OnOk result (IsKept p.now world.old world.new) }
    ensures table { IsTableOf p.now references.new }
{
    let found = resolve(world, p, references, class, index, reference)?;
    match found {
        Ok(callee) => {
            let done = call_found_static(frames, world, alloc, p, reference, callee)?;
            Ok(done)
        }
        Err(fault) => {
            let thrown = throw(world, alloc, p, fault)?;
            Ok(thrown)
        }
    }
}

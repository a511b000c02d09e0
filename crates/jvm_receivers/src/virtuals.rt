//! `invokevirtual` (JVMS 6.5).

ghost use Rattle.std.specs.Prelude.{◌≡◌, ◌<◌, length, Ok, IfOk, IfSome, OnOk};
ghost use Rattle.program_rules.specs.Faults.{Found};
ghost use Rattle.program_rules.specs.Objects.{ObjectKind};
ghost use Rattle.program_rules.specs.Resolution.{MethodAt};
ghost use Rattle.program_rules.specs.Selection.{select_virtual};
ghost use Rattle.class_link.specs.View.{method_ref_of};
ghost use Rattle.class_link.specs.declared.linked.Entry.TheVariants.{Method as MethodEntry};
ghost use Rattle.class_table.specs.Table.{look};
ghost use Rattle.jvm_frames.specs.Frames.{HasWords};
ghost use Rattle.jvm_link.specs.Answers.{AnswersCall, IsCallee};
ghost use Rattle.jvm_link.specs.Named.{method_named};
ghost use Rattle.jvm_link.specs.References.{IsEntry, ResolvesMethodRef};
ghost use Rattle.jvm_world.specs.View.{IsWorldOf, IsKept};
ghost use Rattle.jvm_invokes.specs.Calls.{IsThere};
ghost use Rattle.jvm_invokes.specs.Invoked.{Invokes, StaysOrEnters};
ghost use Rattle.jvm_receivers.specs.Objects.{AreLookups, FindsReceiver, SelectsFor, methods_in};
ghost use Rattle.jvm_receivers.specs.Receivers.{selecting_on, virtual_of};
ghost use Rattle.jvm_receivers.specs.Selected.{own_or_none};
ghost use Rattle.jvm_receivers.specs.Targets.{received};

use crate::lookups::Lookups;
use crate::receivers::receiver_of;
use crate::selected::{call_answered, is_fixed};
use class_link::MethodRef;
use class_model::{ClassId, Memory};
use class_table::Program;
use jvm_frames::{Args, Frames};
use jvm_invokes::Invoked;
use jvm_link::{Callee, Receiver};
use jvm_world::World;
use program_rules::Fault;
use std::alloc::Global;

// What an object selects whose class the program hasn't.
#[tactic(auto, using(crate::proofs::VirtualCalls::fixed_found, crate::proofs::VirtualCalls::other_fails))]
#[inline(never)]
fn select_absent(p: &Program, callee: Callee) -> Result<Callee, Fault>
    requires { IsThere p.now callee }
    ensures { (m : MethodAt) → IsCallee p.now m callee →
        AnswersCall p.now (own_or_none m) result }
{
    if is_fixed(p, callee) {
        return Ok(callee);
    }
    Err(Fault::AbstractMethodError)
}

// What an object of this class selects of the resolved method.
#[inline(always)]
fn select_of(
    p: &Program,
    lookups: &mut Lookups,
    class: ClassId,
    index: u32,
    reference: &MethodRef,
    callee: Callee,
    to: Option<Receiver>,
) -> Result<Result<Callee, Fault>, Memory>
    requires lookups { AreLookups p.now lookups.old }
    requires entry { IsEntry p.now class.0 index (MethodEntry reference.now) }
    requires resolved { ResolvesMethodRef p.now reference.now (Ok callee) }
    requires callee { IsThere p.now callee }
    requires within { IfSome to (λ r. r.class.0 < length p.now) }
    ensures answer { IfOk result (λ a. (k : ObjectKind) (m : MethodAt) → IsCallee p.now m callee →
        method_named (look p.now) (method_ref_of reference.now) ≡ Found m →
        FindsReceiver p.now k to →
        AnswersCall p.now (select_virtual (method_ref_of reference.now) m (methods_in p.now k)) a) }
    ensures lookups { AreLookups p.now lookups.new }
{
    match to {
        Some(receiver) => {
            let answer = lookups
                .selections
                .select_virtual(p, class, index, reference, callee, receiver)?;
            Ok(answer)
        }
        None => Ok(select_absent(p, callee)),
    }
}

// What the object of a number selects of the resolved method, if there is such an object.
#[inline(always)]
fn select(
    alloc: Global,
    world: &World,
    p: &Program,
    lookups: &mut Lookups,
    class: ClassId,
    index: u32,
    reference: &MethodRef,
    callee: Callee,
    object: u32,
) -> Result<Option<Result<Callee, Fault>>, Memory>
    requires lookups { AreLookups p.now lookups.old }
    requires entry { IsEntry p.now class.0 index (MethodEntry reference.now) }
    requires resolved { ResolvesMethodRef p.now reference.now (Ok callee) }
    requires callee { IsThere p.now callee }
    ensures selects { IfOk result (λ s. (m : MethodAt) → IsCallee p.now m callee →
        method_named (look p.now) (method_ref_of reference.now) ≡ Found m →
        SelectsFor p.now world.now object (virtual_of (method_ref_of reference.now) m) s) }
    ensures lookups { AreLookups p.now lookups.new }
{
    match world.object(p, object) {
        Some(found) => {
            let to = receiver_of(alloc, p, lookups.text, &found.kind)?;
            let answer = select_of(p, lookups, class, index, reference, callee, to)?;
            Ok(Some(answer))
        }
        None => Ok(None),
    }
}

/// What an object selects of the resolved method is called on it.
#[tactic(auto, using(jvm_invokes::proofs::Standing::stays))]
#[inline(always)]
pub fn call_virtual(
    frames: &mut Frames,
    world: &mut World,
    alloc: Global,
    p: &Program,
    lookups: &mut Lookups,
    class: ClassId,
    index: u32,
    reference: &MethodRef,
    callee: Callee,
    object: u32,
    args: Args,
) -> Result<Invoked, Memory>
    requires world { IsWorldOf p.now world.old }
    requires lookups { AreLookups p.now lookups.old }
    requires entry { IsEntry p.now class.0 index (MethodEntry reference.now) }
    requires resolved { ResolvesMethodRef p.now reference.now (Ok callee) }
    requires callee { IsThere p.now callee }
    requires args { HasWords args.count args.words frames.old }
    ensures row { IfOk result (λ t. (m : MethodAt) → IsCallee p.now m callee →
        method_named (look p.now) (method_ref_of reference.now) ≡ Found m →
        Invokes p.now (method_ref_of reference.now)
        (received object args.count
        (selecting_on p.now (virtual_of (method_ref_of reference.now) m))) t
        frames.old frames.new world.old world.new) }
    ensures frames { OnOk result (StaysOrEnters p.now frames.old frames.new) }
    ensures kept { OnOk result (IsKept p.now world.old world.new) }
    ensures lookups { AreLookups p.now lookups.new }
{
    let selected = select(
        alloc, world, p, lookups, class, index, reference, callee, object,
    )?;
    let done = call_answered(frames, world, alloc, p, selected, args)?;
    Ok(done)
}

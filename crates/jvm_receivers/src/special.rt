//! `invokespecial` (JVMS 6.5).

ghost use Rattle.std.specs.Prelude.{◌≡◌, ℕ, ◌<◌, length, IfOk, OnOk};
ghost use Rattle.program_rules.specs.Programs.{superclass_in};
ghost use Rattle.program_rules.specs.Resolution.{MethodAt, is_initializer_name};
ghost use Rattle.class_link.specs.View.{method_ref_of};
ghost use Rattle.class_link.specs.declared.linked.Entry.TheVariants.{Method as MethodEntry};
ghost use Rattle.jvm_frames.specs.Frames.{HasWords};
ghost use Rattle.jvm_link.specs.Answers.{IsCallee};
ghost use Rattle.jvm_link.specs.Sites.{outline_at};
ghost use Rattle.jvm_link.specs.References.{IsEntry};
ghost use Rattle.jvm_world.specs.View.{IsWorldOf, IsKept};
ghost use Rattle.jvm_invokes.specs.Calls.{IsThere};
ghost use Rattle.jvm_invokes.specs.Invoked.{Invokes, StaysOrEnters};
ghost use Rattle.jvm_receivers.specs.Objects.{AreLookups};
ghost use Rattle.jvm_receivers.specs.Receivers.{RunsIn, special_above, special_looking, special_on};
ghost use Rattle.jvm_receivers.specs.Targets.{received};

use crate::lookups::Lookups;
use crate::selected::call_selected;
use class_family::superclass;
use class_link::MethodRef;
use class_model::{ClassId, Memory, Name};
use class_table::Program;
use jvm_frames::{Args, Frames};
use jvm_invokes::{Invoked, call_found};
use jvm_link::{Callee, Receiver};
use jvm_unwind::Turn;
use jvm_world::World;
use std::alloc::Global;

// `<init>`, the name of instance initializers (JVMS 2.9.1).
const INITIALIZER: [u16; 6] = [
    b'<' as u16,
    b'i' as u16,
    b'n' as u16,
    b'i' as u16,
    b't' as u16,
    b'>' as u16,
];

// Whether a method is an instance initializer by its name.
#[inline(always)]
fn is_initializer(name: &Name) -> bool
    ensures { result ≡ is_initializer_name name.now }
{
    name.as_slice() == INITIALIZER.as_slice()
}

// A method is selected from the direct superclass of a class on, and called.
#[tactic(auto, using(jvm_invokes::proofs::Standing::stays))]
fn call_above(
    frames: &mut Frames,
    world: &mut World,
    alloc: Global,
    p: &Program,
    lookups: &mut Lookups,
    class: ClassId,
    index: u32,
    reference: &MethodRef,
    args: Args,
) -> Result<Invoked, Memory>
    requires world { IsWorldOf p.now world.old }
    requires lookups { AreLookups p.now lookups.old }
    requires entry { IsEntry p.now class.0 index (MethodEntry reference.now) }
    requires class { class.0 < length p.now }
    requires args { HasWords args.count args.words frames.old }
    ensures row { IfOk result (λ t. Invokes p.now (method_ref_of reference.now)
        (special_above p.now (method_ref_of reference.now) args.count
        (superclass_in (outline_at p.now class.0))) t
        frames.old frames.new world.old world.new) }
    ensures frames { OnOk result (StaysOrEnters p.now frames.old frames.new) }
    ensures kept { OnOk result (IsKept p.now world.old world.new) }
    ensures lookups { AreLookups p.now lookups.new }
{
    let Some(up) = superclass(p, class) else {
        return Ok(Invoked::Turned(Turn::NoRow));
    };
    world.consult(p, up)?;
    let from = Receiver {
        class: up,
        array: false,
    };
    let answer = lookups
        .selections
        .select_named(p, class, index, reference, from)?;
    let done = call_selected(frames, world, alloc, p, answer, args)?;
    Ok(done)
}

// A method other than `<init>` is called, once the class of the frame was consulted.
#[tactic(auto, using(jvm_invokes::proofs::Standing::stays))]
fn call_looked(
    frames: &mut Frames,
    world: &mut World,
    alloc: Global,
    p: &Program,
    lookups: &mut Lookups,
    class: ClassId,
    index: u32,
    reference: &MethodRef,
    callee: Callee,
    args: Args,
) -> Result<Invoked, Memory>
    requires world { IsWorldOf p.now world.old }
    requires lookups { AreLookups p.now lookups.old }
    requires entry { IsEntry p.now class.0 index (MethodEntry reference.now) }
    requires class { class.0 < length p.now }
    requires runs { RunsIn class.0 frames.old }
    requires callee { IsThere p.now callee }
    requires args { HasWords args.count args.words frames.old }
    ensures row { IfOk result (λ t. (m : MethodAt) → IsCallee p.now m callee →
        Invokes p.now (method_ref_of reference.now)
        (special_looking p.now (method_ref_of reference.now) m args.count) t
        frames.old frames.new world.old world.new) }
    ensures frames { OnOk result (StaysOrEnters p.now frames.old frames.new) }
    ensures kept { OnOk result (IsKept p.now world.old world.new) }
    ensures lookups { AreLookups p.now lookups.new }
{
    world.consult(p, class)?;
    let own = lookups.own.tell(p, class, index, reference)?;
    if own {
        let done = call_found(frames, world, alloc, p, callee, args)?;
        return Ok(done);
    }
    let done = call_above(
        frames, world, alloc, p, lookups, class, index, reference, args,
    )?;
    Ok(done)
}

/// A method that was found is called on an object. Whether the reference names the class itself or
/// a direct superinterface is held for its index, so their names are compared at its first call
/// alone.
#[tactic(auto, using(jvm_invokes::proofs::Standing::stays))]
#[inline(always)]
pub fn call_special(
    frames: &mut Frames,
    world: &mut World,
    alloc: Global,
    p: &Program,
    lookups: &mut Lookups,
    class: ClassId,
    index: u32,
    reference: &MethodRef,
    callee: Callee,
    args: Args,
) -> Result<Invoked, Memory>
    requires world { IsWorldOf p.now world.old }
    requires lookups { AreLookups p.now lookups.old }
    requires entry { IsEntry p.now class.0 index (MethodEntry reference.now) }
    requires class { class.0 < length p.now }
    requires runs { RunsIn class.0 frames.old }
    requires callee { IsThere p.now callee }
    requires args { HasWords args.count args.words frames.old }
    ensures row { IfOk result (λ t. (m : MethodAt) (x : ℕ) → IsCallee p.now m callee →
        Invokes p.now (method_ref_of reference.now)
        (received x args.count (special_on p.now (method_ref_of reference.now) m)) t
        frames.old frames.new world.old world.new) }
    ensures frames { OnOk result (StaysOrEnters p.now frames.old frames.new) }
    ensures kept { OnOk result (IsKept p.now world.old world.new) }
    ensures lookups { AreLookups p.now lookups.new }
{
    if is_initializer(&reference.name) {
        let done = call_found(frames, world, alloc, p, callee, args)?;
        return Ok(done);
    }
    let done = call_looked(
        frames, world, alloc, p, lookups, class, index, reference, callee, args,
    )?;
    Ok(done)
}

//! `invokeinterface` (JVMS 6.5).

ghost use Rattle.std.specs.Prelude.{◌≡◌, ◌<◌, length, true, false, IfOk, IfSome, OnOk};
ghost use Rattle.program_rules.specs.Names.{is_array_name, is_listed};
ghost use Rattle.program_rules.specs.Objects.{ObjectKind};
ghost use Rattle.program_rules.specs.Programs.{supers};
ghost use Rattle.program_rules.specs.Selection.{select_named};
ghost use Rattle.class_link.specs.View.{method_ref_of};
ghost use Rattle.class_link.specs.declared.linked.Entry.TheVariants.{Method as MethodEntry};
ghost use Rattle.class_table.specs.Table.{look, name_at};
ghost use Rattle.jvm_frames.specs.Frames.{HasWords};
ghost use Rattle.jvm_link.specs.Answers.{AnswersCall};
ghost use Rattle.jvm_link.specs.References.{IsEntry, IsTableOf};
ghost use Rattle.jvm_type_rows.specs.Instances.{is_kind_within};
ghost use Rattle.jvm_world.specs.View.{IsWorldOf, IsKept, kind_in};
ghost use Rattle.jvm_invokes.specs.Invoked.{Invokes, StaysOrEnters};
ghost use Rattle.jvm_receivers.specs.Objects.{AreLookups, FindsReceiver, SelectsFor, interface_in, methods_in};
ghost use Rattle.jvm_receivers.specs.Receivers.{interface_of, interface_on};
ghost use Rattle.jvm_receivers.specs.Targets.{received};

use crate::lookups::Lookups;
use crate::receivers::receiver_of;
use crate::selected::call_answered;
use class_link::MethodRef;
use class_link::names::is_array_name;
use class_model::{ClassId, Memory};
use class_table::Program;
use jvm_frames::{Args, Frames};
use jvm_invokes::Invoked;
use jvm_link::{Callee, Receiver, References};
use jvm_type_rows::is_kind_within;
use jvm_values::ObjKind;
use jvm_world::World;
use program_rules::Fault;
use std::alloc::Global;

// Whether a class is the one that a reference names, or stands below it, as numbers tell it: where
// it was resolved before, and names no array.
#[tactic(auto, using(crate::proofs::Instances::over_within, crate::proofs::Instances::named_below))]
fn is_below(
    p: &Program,
    references: &References,
    class: ClassId,
    index: u32,
    reference: &MethodRef,
    of: ClassId,
) -> bool
    requires table { IsTableOf p.now references.now }
    requires entry { IsEntry p.now class.0 index (MethodEntry reference.now) }
    requires of { of.0 < length p.now }
    ensures { result ≡ true →
        is_listed reference.now.class (supers (look p.now) (name_at p.now of.0)) ≡ true }
{
    if is_array_name(reference.class.as_slice()) {
        return false;
    }
    match references.named_class(class, index) {
        Some(over) => p.is_subtype(of, over),
        None => false,
    }
}

// Whether a receiver is no array, and its class has no array's name.
fn is_plain(p: &Program, to: Receiver) -> bool
    requires { to.class.0 < length p.now }
    ensures array { result ≡ true → to.array ≡ false }
    ensures name { result ≡ true → is_array_name (name_at p.now to.class.0) ≡ false }
{
    if to.array {
        return false;
    }
    !is_array_name(p.info(to.class).name().as_slice())
}

// Whether numbers tell that an object is of what a reference names.
#[tactic(auto, using(crate::proofs::Instances::by_number))]
fn is_known(
    p: &Program,
    references: &References,
    class: ClassId,
    index: u32,
    reference: &MethodRef,
    to: Option<Receiver>,
) -> bool
    requires table { IsTableOf p.now references.now }
    requires entry { IsEntry p.now class.0 index (MethodEntry reference.now) }
    requires within { IfSome to (λ r. r.class.0 < length p.now) }
    ensures { result ≡ true → (k : ObjectKind) → FindsReceiver p.now k to →
        true ≡ is_kind_within p.now k reference.now.class }
{
    match to {
        Some(receiver) => {
            is_plain(p, receiver)
                && is_below(p, references, class, index, reference, receiver.class)
        }
        None => false,
    }
}

// Whether an object is of the class, the interface or the array type that a reference names. That
// one of a class is of an interface is told by numbers.
fn is_of(
    alloc: Global,
    p: &Program,
    references: &References,
    class: ClassId,
    index: u32,
    reference: &MethodRef,
    kind: &ObjKind,
    to: Option<Receiver>,
) -> Result<bool, Memory>
    requires table { IsTableOf p.now references.now }
    requires entry { IsEntry p.now class.0 index (MethodEntry reference.now) }
    requires receiver { FindsReceiver p.now (kind_in p.now kind.now) to }
    requires within { IfSome to (λ r. r.class.0 < length p.now) }
    ensures { IfOk result (λ b.
        b ≡ is_kind_within p.now (kind_in p.now kind.now) reference.now.class) }
{
    if is_known(p, references, class, index, reference, to) {
        return Ok(true);
    }
    let is = is_kind_within(alloc, p, kind, &reference.class)?;
    Ok(is)
}

// What an object of this class selects by name and descriptor.
fn select_of(
    p: &Program,
    lookups: &mut Lookups,
    class: ClassId,
    index: u32,
    reference: &MethodRef,
    to: Option<Receiver>,
) -> Result<Result<Callee, Fault>, Memory>
    requires lookups { AreLookups p.now lookups.old }
    requires entry { IsEntry p.now class.0 index (MethodEntry reference.now) }
    requires within { IfSome to (λ r. r.class.0 < length p.now) }
    ensures answer { IfOk result (λ a. (k : ObjectKind) → FindsReceiver p.now k to →
        AnswersCall p.now (select_named (method_ref_of reference.now) (methods_in p.now k)) a) }
    ensures lookups { AreLookups p.now lookups.new }
{
    match to {
        Some(receiver) => {
            let answer = lookups
                .selections
                .select_named(p, class, index, reference, receiver)?;
            Ok(answer)
        }
        None => Ok(Err(Fault::AbstractMethodError)),
    }
}

// What an object of a kind selects by name and descriptor, if it is of the interface.
fn select_known(
    alloc: Global,
    p: &Program,
    lookups: &mut Lookups,
    class: ClassId,
    index: u32,
    reference: &MethodRef,
    kind: &ObjKind,
) -> Result<Result<Callee, Fault>, Memory>
    requires lookups { AreLookups p.now lookups.old }
    requires entry { IsEntry p.now class.0 index (MethodEntry reference.now) }
    ensures answer { IfOk result (λ a. AnswersCall p.now
        (interface_in p.now (method_ref_of reference.now) (kind_in p.now kind.now)) a) }
    ensures lookups { AreLookups p.now lookups.new }
{
    let to = receiver_of(alloc, p, lookups.text, kind)?;
    let references = &lookups.references;
    let fits = is_of(alloc, p, references, class, index, reference, kind, to)?;
    if !fits {
        return Ok(Err(Fault::IncompatibleClassChangeError));
    }
    let answer = select_of(p, lookups, class, index, reference, to)?;
    Ok(answer)
}

// What the object of a number selects, if there is such an object.
fn select(
    alloc: Global,
    world: &World,
    p: &Program,
    lookups: &mut Lookups,
    class: ClassId,
    index: u32,
    reference: &MethodRef,
    object: u32,
) -> Result<Option<Result<Callee, Fault>>, Memory>
    requires lookups { AreLookups p.now lookups.old }
    requires entry { IsEntry p.now class.0 index (MethodEntry reference.now) }
    ensures selects { IfOk result (λ s.
        SelectsFor p.now world.now object (interface_of (method_ref_of reference.now)) s) }
    ensures lookups { AreLookups p.now lookups.new }
{
    match world.object(p, object) {
        Some(found) => {
            let answer = select_known(alloc, p, lookups, class, index, reference, &found.kind)?;
            Ok(Some(answer))
        }
        None => Ok(None),
    }
}

/// What an object selects is called on it, if it is of the interface.
#[tactic(auto, using(jvm_invokes::proofs::Standing::stays))]
pub fn call_interface(
    frames: &mut Frames,
    world: &mut World,
    alloc: Global,
    p: &Program,
    lookups: &mut Lookups,
    class: ClassId,
    index: u32,
    reference: &MethodRef,
    object: u32,
    args: Args,
) -> Result<Invoked, Memory>
    requires world { IsWorldOf p.now world.old }
    requires lookups { AreLookups p.now lookups.old }
    requires entry { IsEntry p.now class.0 index (MethodEntry reference.now) }
    requires args { HasWords args.count args.words frames.old }
    ensures row { IfOk result (λ t. Invokes p.now (method_ref_of reference.now)
        (received object args.count (interface_on p.now (method_ref_of reference.now))) t
        frames.old frames.new world.old world.new) }
    ensures frames { OnOk result (StaysOrEnters p.now frames.old frames.new) }
    ensures kept { OnOk result (IsKept p.now world.old world.new) }
    ensures lookups { AreLookups p.now lookups.new }
{
    let selected = select(alloc, world, p, lookups, class, index, reference, object)?;
    let done = call_answered(frames, world, alloc, p, selected, args)?;
    Ok(done)
}

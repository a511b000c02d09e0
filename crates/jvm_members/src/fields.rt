//! `getfield` and `putfield` (JVMS 6.5).

ghost use Rattle.std.specs.Prelude.{◌≡◌, ◌+◌, ◌<◌, ◌^◌, length, IfOk, IfSome, OnOk};
ghost use Rattle.program_rules.specs.Names.{Name, class_behind};
ghost use Rattle.program_rules.specs.Outlines.{fields_in};
ghost use Rattle.program_rules.specs.Resolution.{FieldAt};
ghost use Rattle.machine_rules.specs.Lookups.{consult};
ghost use Rattle.class_link.specs.View.{field_ref_of};
ghost use Rattle.class_link.specs.declared.linked.Entry.TheVariants.{Field};
ghost use Rattle.class_link.specs.declared.linked.FieldRef.{FieldRef as Reference};
ghost use Rattle.class_table.specs.Table.{look};
ghost use Rattle.jvm_rows.specs.Effects.{Runs};
ghost use Rattle.jvm_link.specs.Named.{IsClassNamed};
ghost use Rattle.jvm_link.specs.Sites.{outline_at};
ghost use Rattle.jvm_link.specs.References.{IsEntry, IsFieldNamed, IsTableOf};
ghost use Rattle.jvm_world.specs.View.{IsWorldOf, IsKept, Moves};
ghost use Rattle.jvm_members.specs.Whole.{RunsWhole};
ghost use Rattle.jvm_members.specs.FieldRows.{instance_found, instance_row, slot_row};
ghost use Rattle.jvm_members.specs.Sites.{HasKindAt, ResolvesTo};
ghost use Rattle.jvm_members.specs.Slots.{AreSlots, IsKnown};

use crate::access::Access;
use crate::resolve_field;
use crate::sites::{ObjectField, field_at, is_static};
use crate::slots::Slots;
use class_link::FieldRef;
use class_model::{ClassId, Memory};
use class_table::Program;
use jvm_frames::Frames;
use jvm_link::{References, Site};
use jvm_rows::{Effect, get_field, put_field, throw};
use jvm_world::World;
use program_rules::Fault;
use std::alloc::Global;

// The slot of an object on the stack is read or written.
#[inline(always)]
fn access_slot(
    frames: &mut Frames,
    world: &mut World,
    alloc: Global,
    p: &Program,
    field: ObjectField,
    access: Access,
) -> Result<Effect, Memory>
    requires world { IsWorldOf p.now world.old }
    requires class { field.site.class.0 < length p.now }
    requires place { field.site.place < length (fields_in (outline_at p.now field.site.class.0)) }
    requires next { IfSome frames.old.frame (λ f. f.at + 1 < 2 ^ 64) }
    ensures row { IfOk result (λ e. (x : FieldAt) → x.slot ≡ field.slot →
        HasKindAt p.now field.site x →
        Runs p.now (slot_row access x) e frames.old frames.new world.old world.new) }
    ensures kept { OnOk result (IsKept p.now world.old world.new) }
{
    match access {
        Access::Get => {
            let done = get_field(frames, world, alloc, p, field.slot)?;
            Ok(done)
        }
        Access::Put => {
            let declared = field_at(p, field.site);
            let done = put_field(frames, world, alloc, p, &declared.kind, field.slot)?;
            Ok(done)
        }
    }
}

// A field that was found is read or written, if it isn't static.
#[tactic(auto, using(crate::proofs::Fielded::place_within, crate::proofs::Fielded::object_class, crate::proofs::Fielded::object_place))]
fn access_found(
    frames: &mut Frames,
    world: &mut World,
    alloc: Global,
    p: &Program,
    slots: &mut Slots,
    class: ClassId,
    index: u32,
    reference: &FieldRef,
    site: Site,
    access: Access,
) -> Result<Effect, Memory>
    requires world { IsWorldOf p.now world.old }
    requires slots { AreSlots p.now slots.old }
    requires entry { IsEntry p.now class.0 index (Field reference.now) }
    requires site { IsFieldNamed p.now reference.now site }
    requires next { IfSome frames.old.frame (λ f. f.at + 1 < 2 ^ 64) }
    ensures row { IfOk result (λ e. (x : FieldAt) → ResolvesTo p.now reference.now x →
        Runs p.now (instance_found access x) e frames.old frames.new world.old world.new) }
    ensures kept { OnOk result (IsKept p.now world.old world.new) }
    ensures slots { AreSlots p.now slots.new }
{
    if is_static(p, site) {
        let thrown = throw(world, alloc, p, Fault::IncompatibleClassChangeError)?;
        return Ok(thrown);
    }
    let field = slots.keep(alloc, p, class, index, reference, site)?;
    let done = access_slot(frames, world, alloc, p, field, access)?;
    Ok(done)
}

// Consults the class of a number: a look at its mark, where it was consulted before.
#[tactic(auto, using(crate::proofs::Known::named_moves, crate::proofs::Known::named_kept))]
#[inline(always)]
fn consult(world: &mut World, p: &Program, id: ClassId) -> Result<(), Memory>
    requires world { IsWorldOf p.now world.old }
    requires class { id.0 < length p.now }
    ensures moves { OnOk result ((n : Name) → IsClassNamed p.now n id →
        Moves p.now world.old world.new (consult (look p.now) (class_behind n))) }
    ensures kept { OnOk result (IsKept p.now world.old world.new) }
{
    p.consult(&mut world.consulted, id)?;
    Ok(())
}

/// `getfield` or `putfield` of the reference at an index of a class's constant pool, where it is
/// known what that resolves to: the constant pool isn't asked.
#[inline(always)]
#[tactic(auto, using(crate::proofs::Known::names_class, crate::proofs::Known::has_class, crate::proofs::Known::has_place))]
pub fn access_known(
    frames: &mut Frames,
    world: &mut World,
    alloc: Global,
    p: &Program,
    class: ClassId,
    index: u32,
    field: ObjectField,
    access: Access,
) -> Result<Effect, Memory>
    requires world { IsWorldOf p.now world.old }
    requires known { IsKnown p.now class.0 index field }
    requires next { IfSome frames.old.frame (λ f. f.at + 1 < 2 ^ 64) }
    ensures row { IfOk result (λ e. (r : Reference) → IsEntry p.now class.0 index (Field r) →
        RunsWhole p.now (instance_row p.now access (field_ref_of r)) e
        frames.old frames.new world.old world.new) }
    ensures kept { OnOk result (IsKept p.now world.old world.new) }
{
    consult(world, p, field.named)?;
    let done = access_slot(frames, world, alloc, p, field, access)?;
    Ok(done)
}

/// `getfield` or `putfield` of the reference at an index of a class's constant pool. Where that
/// resolves to a field of objects, the field is known from then on.
#[tactic(auto, using(crate::proofs::Fielded::named_by))]
pub fn access_field(
    frames: &mut Frames,
    world: &mut World,
    alloc: Global,
    p: &Program,
    references: &mut References,
    slots: &mut Slots,
    class: ClassId,
    index: u32,
    reference: &FieldRef,
    access: Access,
) -> Result<Effect, Memory>
    requires world { IsWorldOf p.now world.old }
    requires table { IsTableOf p.now references.old }
    requires slots { AreSlots p.now slots.old }
    requires entry { IsEntry p.now class.0 index (Field reference.now) }
    requires next { IfSome frames.old.frame (λ f. f.at + 1 < 2 ^ 64) }
    ensures row { IfOk result (λ e.
        RunsWhole p.now (instance_row p.now access (field_ref_of reference.now)) e
        frames.old frames.new world.old world.new) }
    ensures kept { OnOk result (IsKept p.now world.old world.new) }
    ensures table { IsTableOf p.now references.new }
    ensures slots { AreSlots p.now slots.new }
{
    let found = resolve_field(world, p, references, class, index, reference)?;
    match found {
        Ok(site) => {
            let done = access_found(
                frames, world, alloc, p, slots, class, index, reference, site, access,
            )?;
            Ok(done)
        }
        Err(fault) => {
            let thrown = throw(world, alloc, p, fault)?;
            Ok(thrown)
        }
    }
}

//! Fields and new objects (JVMS 6.5), by the entry at an index of the constant pool.

ghost use Rattle.std.specs.Prelude.{IfOk, IsSomeAnd, OnOk};
ghost use Rattle.program_rules.specs.Instructions as def;
ghost use Rattle.class_link.specs.Opcodes.{on_class, on_field};
ghost use Rattle.class_table.specs.Faults.{HasRightKinds};
ghost use Rattle.class_table.specs.Table.{look};
ghost use Rattle.jvm_members.specs.Layouts.{AreLayouts};
ghost use Rattle.jvm_members.specs.Slots.{AreSlots};
ghost use Rattle.jvm_link.specs.References.{IsTableOf};
ghost use Rattle.jvm_world.specs.View.{IsWorldOf, IsKept};
ghost use Rattle.jvm_act.specs.Acts.{TurnsAs, field_named, member_at, symbol_at};
ghost use Rattle.jvm_act.specs.Standing.{HasNext, AreFramesOf};
ghost use Rattle.jvm_act.specs.declared.groups.FieldUse.TheVariants as field;

use crate::groups::{FieldUse, MemberOp};
use crate::symbols::{class_at, field_at};
use crate::turning::turn_of;
use class_family::Walker;
use class_model::{ClassId, Memory};
use class_table::Program;
use jvm_frames::Frames;
use jvm_link::References;
use jvm_members::{Access, Layouts, Slots, access_field, access_known, access_static, make_object};
use jvm_unwind::Turn;
use jvm_world::World;
use std::alloc::Global;

// The static field at an index is used.
#[tactic(auto, using(crate::proofs::Executed::has_next, crate::proofs::Executed::kept_same, crate::proofs::Fielded::whole_of))]
fn use_static(
    frames: &mut Frames,
    world: &mut World,
    alloc: Global,
    p: &Program,
    references: &mut References,
    walker: &mut Walker,
    class: ClassId,
    index: u32,
    access: Access,
) -> Result<Turn, Memory>
    requires world { IsWorldOf p.now world.old }
    requires kinds { HasRightKinds (look p.now) }
    requires table { IsTableOf p.now references.old }
    requires frames { AreFramesOf p.now frames.old }
    requires runs { IsSomeAnd frames.old.frame HasNext }
    ensures row { IfOk result (λ t. TurnsAs p.now
        (on_field (field_named (field.Static access)) (symbol_at p.now class.0 index)) t
        frames.old frames.new world.old world.new) }
    ensures frames { OnOk result (AreFramesOf p.now frames.new) }
    ensures kept { OnOk result (IsKept p.now world.old world.new) }
    ensures table { IsTableOf p.now references.new }
{
    match field_at(p, class, index) {
        Some(field) => {
            let turn = access_static(
                frames, world, alloc, p, references, walker, class, index, field, access,
            )?;
            Ok(turn)
        }
        None => Ok(Turn::NoRow),
    }
}

// The field of an object at an index is used, which wasn't known.
#[inline(never)]
#[tactic(auto, using(crate::proofs::Executed::has_next, crate::proofs::Executed::kept_same))]
fn use_unknown(
    frames: &mut Frames,
    world: &mut World,
    alloc: Global,
    p: &Program,
    references: &mut References,
    slots: &mut Slots,
    class: ClassId,
    index: u32,
    access: Access,
) -> Result<Turn, Memory>
    requires world { IsWorldOf p.now world.old }
    requires table { IsTableOf p.now references.old }
    requires slots { AreSlots p.now slots.old }
    requires frames { AreFramesOf p.now frames.old }
    requires runs { IsSomeAnd frames.old.frame HasNext }
    ensures row { IfOk result (λ t. TurnsAs p.now
        (on_field (field_named (field.Object access)) (symbol_at p.now class.0 index)) t
        frames.old frames.new world.old world.new) }
    ensures frames { OnOk result (AreFramesOf p.now frames.new) }
    ensures kept { OnOk result (IsKept p.now world.old world.new) }
    ensures table { IsTableOf p.now references.new }
    ensures slots { AreSlots p.now slots.new }
{
    match field_at(p, class, index) {
        Some(field) => {
            let done = access_field(
                frames, world, alloc, p, references, slots, class, index, field, access,
            )?;
            let turn = turn_of(done);
            Ok(turn)
        }
        None => Ok(Turn::NoRow),
    }
}

// The field of an object at an index is used.
#[inline(always)]
#[tactic(auto, using(crate::proofs::Executed::has_next))]
fn use_object(
    frames: &mut Frames,
    world: &mut World,
    alloc: Global,
    p: &Program,
    references: &mut References,
    slots: &mut Slots,
    class: ClassId,
    index: u32,
    access: Access,
) -> Result<Turn, Memory>
    requires world { IsWorldOf p.now world.old }
    requires table { IsTableOf p.now references.old }
    requires slots { AreSlots p.now slots.old }
    requires frames { AreFramesOf p.now frames.old }
    requires runs { IsSomeAnd frames.old.frame HasNext }
    ensures row { IfOk result (λ t. TurnsAs p.now
        (on_field (field_named (field.Object access)) (symbol_at p.now class.0 index)) t
        frames.old frames.new world.old world.new) }
    ensures frames { OnOk result (AreFramesOf p.now frames.new) }
    ensures kept { OnOk result (IsKept p.now world.old world.new) }
    ensures table { IsTableOf p.now references.new }
    ensures slots { AreSlots p.now slots.new }
{
    match slots.known(p, class, index) {
        Some(field) => {
            let done = access_known(frames, world, alloc, p, class, index, field, access)?;
            let turn = turn_of(done);
            Ok(turn)
        }
        None => {
            let turn = use_unknown(
                frames, world, alloc, p, references, slots, class, index, access,
            )?;
            Ok(turn)
        }
    }
}

// The field at an index is used.
#[inline(always)]
fn use_field(
    frames: &mut Frames,
    world: &mut World,
    alloc: Global,
    p: &Program,
    references: &mut References,
    slots: &mut Slots,
    walker: &mut Walker,
    class: ClassId,
    index: u32,
    how: FieldUse,
) -> Result<Turn, Memory>
    requires world { IsWorldOf p.now world.old }
    requires kinds { HasRightKinds (look p.now) }
    requires table { IsTableOf p.now references.old }
    requires slots { AreSlots p.now slots.old }
    requires frames { AreFramesOf p.now frames.old }
    requires runs { IsSomeAnd frames.old.frame HasNext }
    ensures row { IfOk result (λ t.
        TurnsAs p.now (on_field (field_named how) (symbol_at p.now class.0 index)) t
        frames.old frames.new world.old world.new) }
    ensures frames { OnOk result (AreFramesOf p.now frames.new) }
    ensures kept { OnOk result (IsKept p.now world.old world.new) }
    ensures table { IsTableOf p.now references.new }
    ensures slots { AreSlots p.now slots.new }
{
    match how {
        FieldUse::Static(access) => {
            let turn = use_static(
                frames, world, alloc, p, references, walker, class, index, access,
            )?;
            Ok(turn)
        }
        FieldUse::Object(access) => {
            let turn = use_object(
                frames, world, alloc, p, references, slots, class, index, access,
            )?;
            Ok(turn)
        }
    }
}

// `new` of the class at an index.
#[tactic(auto, using(crate::proofs::Executed::has_next, crate::proofs::Fielded::whole_of, crate::proofs::Executed::kept_same, crate::proofs::Fielded::made, crate::proofs::Fielded::no_object))]
fn make_at(
    frames: &mut Frames,
    world: &mut World,
    alloc: Global,
    p: &Program,
    references: &mut References,
    layouts: &mut Layouts,
    walker: &mut Walker,
    class: ClassId,
    index: u32,
) -> Result<Turn, Memory>
    requires world { IsWorldOf p.now world.old }
    requires kinds { HasRightKinds (look p.now) }
    requires table { IsTableOf p.now references.old }
    requires layouts { AreLayouts p.now layouts.old }
    requires frames { AreFramesOf p.now frames.old }
    requires runs { IsSomeAnd frames.old.frame HasNext }
    ensures row { IfOk result (λ t.
        TurnsAs p.now (on_class def.New (symbol_at p.now class.0 index)) t
        frames.old frames.new world.old world.new) }
    ensures frames { OnOk result (AreFramesOf p.now frames.new) }
    ensures kept { OnOk result (IsKept p.now world.old world.new) }
    ensures table { IsTableOf p.now references.new }
    ensures layouts { AreLayouts p.now layouts.new }
{
    match class_at(p, class, index) {
        Some(name) => {
            let turn = make_object(
                frames, world, alloc, p, references, walker, layouts, class, index, name,
            )?;
            Ok(turn)
        }
        None => Ok(Turn::NoRow),
    }
}

/// Uses a field, or makes an object. Where a class has to begin first, that is the turn, and the
/// instruction stays.
#[inline(always)]
pub fn take_member(
    frames: &mut Frames,
    world: &mut World,
    alloc: Global,
    p: &Program,
    references: &mut References,
    slots: &mut Slots,
    layouts: &mut Layouts,
    walker: &mut Walker,
    class: ClassId,
    op: MemberOp,
) -> Result<Turn, Memory>
    requires world { IsWorldOf p.now world.old }
    requires kinds { HasRightKinds (look p.now) }
    requires table { IsTableOf p.now references.old }
    requires slots { AreSlots p.now slots.old }
    requires layouts { AreLayouts p.now layouts.old }
    requires frames { AreFramesOf p.now frames.old }
    requires runs { IsSomeAnd frames.old.frame HasNext }
    ensures row { IfOk result (λ t. TurnsAs p.now (member_at p.now class.0 op) t
        frames.old frames.new world.old world.new) }
    ensures frames { OnOk result (AreFramesOf p.now frames.new) }
    ensures kept { OnOk result (IsKept p.now world.old world.new) }
    ensures table { IsTableOf p.now references.new }
    ensures slots { AreSlots p.now slots.new }
    ensures layouts { AreLayouts p.now layouts.new }
{
    match op {
        MemberOp::Field(how, index) => {
            let turn = use_field(
                frames, world, alloc, p, references, slots, walker, class, index, how,
            )?;
            Ok(turn)
        }
        MemberOp::New(index) => {
            let turn = make_at(
                frames, world, alloc, p, references, layouts, walker, class, index,
            )?;
            Ok(turn)
        }
    }
}

//! The rows of an object's fields, once the field was found (JVMS 6.5).

ghost use Rattle.std.specs.Prelude.{◌≡◌, ◌+◌, ◌<◌, ◌≤◌, ◌^◌, length, List, IfOk, IfSome, OnOk};
ghost use Rattle.program_rules.specs.Resolution.{FieldAt};
ghost use Rattle.class_link.specs.Info.{Info};
ghost use Rattle.class_link.specs.Symbols.{kind_of};
ghost use Rattle.jvm_frames.specs.Frames.{stack_of};
ghost use Rattle.jvm_world.specs.View.{object_of, IsWorldOf, IsKept};
ghost use Rattle.jvm_rows.specs.Effects.{Runs};
ghost use Rattle.jvm_rows.specs.Rows.{InstanceBy, TellsInstance, Holds, FindsValue, getting, getting_from, storing, storing_in};

use crate::effect::Effect;
use crate::ending::throw;
use crate::kinds::narrow_to;
use crate::stack::{of_kind_at, reference_at};
use class_model::{Kind, Memory};
use class_table::Program;
use jvm_frames::Frames;
use jvm_values::{ObjKind, Object};
use jvm_world::World;
use program_rules::{Fault, Value};
use std::alloc::Global;

// Whether an object has fields: it is no array.
fn has_fields(object: &Object) -> bool
    ensures { (p : List Info) → InstanceBy result (Some (object_of p object.now)) }
{
    match &object.kind {
        ObjKind::Array(_) => false,
        ObjKind::Plain(_) => true,
        ObjKind::Text => true,
    }
}

// Whether the object of a number has fields.
#[inline(always)]
fn is_instance(world: &World, p: &Program, object: u32) -> bool
    ensures { TellsInstance p.now world.now object result }
{
    match world.object(p, object) {
        Some(found) => has_fields(found),
        None => false,
    }
}

// The value in a slot of an object that has fields.
#[inline(always)]
fn value_in(object: &Object, slot: u32) -> Option<Value>
    ensures { (p : List Info) → Holds (Some (object_of p object.now)) slot result }
{
    if !has_fields(object) {
        return None;
    }
    match object.values.get(slot as usize) {
        Some(value) => Some(*value),
        None => None,
    }
}

// The value in a slot of the object of a number.
#[inline(always)]
fn find_value(world: &World, p: &Program, object: u32, slot: u32) -> Option<Value>
    ensures { FindsValue p.now world.now object slot result }
{
    match world.object(p, object) {
        Some(found) => value_in(found, slot),
        None => None,
    }
}

// The field of an object is pushed in its place.
#[inline(always)]
fn get_from(frames: &mut Frames, world: &World, p: &Program, slot: u32, object: u32) -> Effect
    requires next { IfSome frames.old.frame (λ f. f.at + 1 < 2 ^ 64) }
    requires there { 1 ≤ length (stack_of frames.old.frame) }
    ensures { Runs p.now (getting_from slot object) result
        frames.old frames.new world.now world.now }
{
    match find_value(world, p, object, slot) {
        Some(value) => {
            if frames.fits(1, value) {
                frames.put(1, value);
                Effect::Goes
            } else {
                Effect::NoRow
            }
        }
        None => Effect::NoRow,
    }
}

/// `getfield` of a field with this slot.
#[inline(always)]
pub fn get_field(
    frames: &mut Frames,
    world: &mut World,
    alloc: Global,
    p: &Program,
    slot: u32,
) -> Result<Effect, Memory>
    requires world { IsWorldOf p.now world.old }
    requires next { IfSome frames.old.frame (λ f. f.at + 1 < 2 ^ 64) }
    ensures row { IfOk result (λ e. (x : FieldAt) → x.slot ≡ slot →
        Runs p.now (getting x) e frames.old frames.new world.old world.new) }
    ensures kept { OnOk result (IsKept p.now world.old world.new) }
{
    let Some(reference) = reference_at(frames, 0) else {
        return Ok(Effect::NoRow);
    };
    match reference {
        Some(object) => Ok(get_from(frames, world, p, slot, object)),
        None => {
            let thrown = throw(world, alloc, p, Fault::NullPointerException)?;
            Ok(thrown)
        }
    }
}

// A value is stored in the field of an object, and both are taken off.
#[inline(always)]
fn put_in(
    frames: &mut Frames,
    world: &mut World,
    p: &Program,
    slot: u32,
    value: Value,
    object: u32,
) -> Effect
    requires world { IsWorldOf p.now world.old }
    requires next { IfSome frames.old.frame (λ f. f.at + 1 < 2 ^ 64) }
    requires there { 2 ≤ length (stack_of frames.old.frame) }
    ensures row { Runs p.now (storing_in slot value object) result
        frames.old frames.new world.old world.new }
    ensures kept { IsKept p.now world.old world.new }
{
    if !is_instance(world, p, object) {
        return Effect::NoRow;
    }
    if !world.set_slot(p, object, slot, value) {
        return Effect::NoRow;
    }
    frames.advance(2);
    Effect::Goes
}

/// `putfield` of a field with this slot and of this kind.
#[inline(always)]
pub fn put_field(
    frames: &mut Frames,
    world: &mut World,
    alloc: Global,
    p: &Program,
    kind: &Kind,
    slot: u32,
) -> Result<Effect, Memory>
    requires world { IsWorldOf p.now world.old }
    requires next { IfSome frames.old.frame (λ f. f.at + 1 < 2 ^ 64) }
    ensures row { IfOk result (λ e. (x : FieldAt) → x.slot ≡ slot → x.kind ≡ kind_of kind.now →
        Runs p.now (storing x) e frames.old frames.new world.old world.new) }
    ensures kept { OnOk result (IsKept p.now world.old world.new) }
{
    let Some(value) = of_kind_at(frames, 0, kind) else {
        return Ok(Effect::NoRow);
    };
    let Some(reference) = reference_at(frames, 1) else {
        return Ok(Effect::NoRow);
    };
    match reference {
        Some(object) => {
            let narrowed = narrow_to(kind, value);
            Ok(put_in(frames, world, p, slot, narrowed, object))
        }
        None => {
            let thrown = throw(world, alloc, p, Fault::NullPointerException)?;
            Ok(thrown)
        }
    }
}

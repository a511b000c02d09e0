//! The stores of elements that are no references (JVMS 6.5).

ghost use Rattle.std.specs.Prelude.{◌≡◌, ◌+◌, ◌<◌, ◌≤◌, ◌^◌, true, length, List, IfOk, IfSome, OnOk};
ghost use Rattle.program_rules.specs.Kinds.{is_of_kind};
ghost use Rattle.machine_rules.specs.Arrays.{taken_by};
ghost use Rattle.class_link.specs.Info.{Info};
ghost use Rattle.class_table.specs.Table.{look};
ghost use Rattle.jvm_frames.specs.Frames.{stack_of};
ghost use Rattle.jvm_world.specs.View.{object_of, IsWorldOf, IsKept};
ghost use Rattle.jvm_rows.specs.Effects.{Runs};
ghost use Rattle.jvm_rows.specs.Storing.{is_primitive, storing_element, storing_at, NarrowsFor, NarrowsIn};

use crate::effect::Effect;
use crate::elements::{Sought, find_element};
use crate::ending::throw;
use crate::kinds::narrow_to;
use crate::stack::{int_at, reference_at};
use class_model::Memory;
use class_table::Program;
use jvm_frames::Frames;
use jvm_values::{ObjKind, Object};
use jvm_world::World;
use program_rules::{Element, Fault, Value};
use std::alloc::Global;

// Whether an instruction takes a value off the stack.
fn is_taken(element: Element, v: Value) -> bool
    ensures { result ≡ is_of_kind (taken_by element) v }
{
    match element {
        Element::LongElement => matches!(v, Value::Long(_)),
        Element::ReferenceElement => matches!(v, Value::Ref(_) | Value::Null),
        Element::IntElement | Element::ByteElement | Element::CharElement | Element::ShortElement =>
            matches!(v, Value::Int(_)),
    }
}

// What is left of a value at the kind of the elements, where an object is an array.
fn narrow_for(object: &Object, value: Value) -> Value
    ensures { (p : List Info) → NarrowsFor (object_of p object.now) value result }
{
    match &object.kind {
        ObjKind::Array(kind) => narrow_to(kind, value),
        ObjKind::Plain(_) => value,
        ObjKind::Text => value,
    }
}

// The same of the object of a number.
fn narrow_in(world: &World, p: &Program, object: u32, value: Value) -> Value
    ensures { NarrowsIn p.now world.now object value result }
{
    match world.object(p, object) {
        Some(found) => narrow_for(found, value),
        None => value,
    }
}

/// A value is stored at an index of an array, and all three are taken off. Of a reference this asks
/// no class.
pub fn store_in(
    frames: &mut Frames,
    world: &mut World,
    alloc: Global,
    p: &Program,
    element: Element,
    index: i32,
    object: u32,
    value: Value,
) -> Result<Effect, Memory>
    requires world { IsWorldOf p.now world.old }
    requires next { IfSome frames.old.frame (λ f. f.at + 1 < 2 ^ 64) }
    requires there { 3 ≤ length (stack_of frames.old.frame) }
    ensures row { IfOk result (λ e. Runs p.now (storing_at element index object value) e
        frames.old frames.new world.old world.new) }
    ensures kept { OnOk result (IsKept p.now world.old world.new) }
{
    match find_element(world, p, element, index, object) {
        Sought::NoRow => Ok(Effect::NoRow),
        Sought::Outside => {
            let thrown = throw(world, alloc, p, Fault::ArrayIndexOutOfBoundsException)?;
            Ok(thrown)
        }
        Sought::Element(_) => {
            let narrowed = narrow_in(world, p, object, value);
            let place = index.unsigned_abs();
            if world.set_slot(p, object, place, narrowed) {
                frames.advance(3);
                Ok(Effect::Goes)
            } else {
                Ok(Effect::NoRow)
            }
        }
    }
}

/// `iastore`, `lastore`, `bastore`, `castore`, `sastore`.
pub fn store_element(
    frames: &mut Frames,
    world: &mut World,
    alloc: Global,
    p: &Program,
    element: Element,
) -> Result<Effect, Memory>
    requires world { IsWorldOf p.now world.old }
    requires next { IfSome frames.old.frame (λ f. f.at + 1 < 2 ^ 64) }
    requires primitive { is_primitive element ≡ true }
    ensures row { IfOk result (λ e. Runs p.now (storing_element (look p.now) element) e
        frames.old frames.new world.old world.new) }
    ensures kept { OnOk result (IsKept p.now world.old world.new) }
{
    let Some(value) = frames.value(0) else {
        return Ok(Effect::NoRow);
    };
    if !is_taken(element, value) {
        return Ok(Effect::NoRow);
    }
    let Some(index) = int_at(frames, 1) else {
        return Ok(Effect::NoRow);
    };
    let Some(reference) = reference_at(frames, 2) else {
        return Ok(Effect::NoRow);
    };
    match reference {
        Some(object) => {
            let done = store_in(frames, world, alloc, p, element, index, object, value)?;
            Ok(done)
        }
        None => {
            let thrown = throw(world, alloc, p, Fault::NullPointerException)?;
            Ok(thrown)
        }
    }
}

//! The loads and stores of elements (JVMS 6.5).

ghost use Rattle.std.specs.Prelude.{◌≡◌, ◌+◌, ◌<◌, ◌≤◌, ◌^◌, List, length, IfOk, IfSome, OnOk};
ghost use Rattle.machine_rules.specs.Arrays.{element_at};
ghost use Rattle.jvm_frames.specs.Frames.{stack_of};
ghost use Rattle.class_link.specs.Info.{Info};
ghost use Rattle.jvm_world.specs.View.{object_of, IsWorldOf, IsKept};
ghost use Rattle.jvm_rows.specs.Effects.{Runs};
ghost use Rattle.jvm_rows.specs.Rows.{FindsIn, Finds, loading, taking_element};

use crate::effect::Effect;
use crate::ending::throw;
use crate::kinds::serves;
use crate::stack::{int_at, reference_at};
use class_model::Memory;
use class_table::Program;
use jvm_frames::Frames;
use jvm_values::{ObjKind, Object};
use jvm_world::World;
use program_rules::{Element, Fault, Value};
use std::alloc::Global;

/// What a search for an element gives.
#[derive(Clone, Copy)]
pub enum Sought {
    /// No row applies: it isn't an array of such elements.
    NoRow,
    /// The index isn't of the array.
    Outside,
    Element(Value),
}

// The element at an index, none outside.
fn element_at(values: &[Value], index: i32) -> Option<Value>
    ensures { result ≡ element_at values.now index }
{
    if index < 0 {
        return None;
    }
    let value = values.get(index as usize)?;
    Some(*value)
}

// The element of an object at an index.
fn element_in(object: &Object, element: Element, index: i32) -> Sought
    ensures { (p : List Info) → FindsIn element index (object_of p object.now) result }
{
    match &object.kind {
        ObjKind::Array(kind) => {
            if !serves(element, kind) {
                return Sought::NoRow;
            }
            match element_at(object.values.as_slice(), index) {
                Some(value) => Sought::Element(value),
                None => Sought::Outside,
            }
        }
        ObjKind::Plain(_) => Sought::NoRow,
        ObjKind::Text => Sought::NoRow,
    }
}

/// The element of the object of a number at an index.
pub fn find_element(world: &World, p: &Program, element: Element, index: i32, object: u32) -> Sought
    ensures { Finds p.now world.now element index object result }
{
    match world.object(p, object) {
        Some(found) => element_in(found, element, index),
        None => Sought::NoRow,
    }
}

// The element at an index of an array is pushed in the place of both.
fn load_from(
    frames: &mut Frames,
    world: &mut World,
    alloc: Global,
    p: &Program,
    element: Element,
    index: i32,
    object: u32,
) -> Result<Effect, Memory>
    requires world { IsWorldOf p.now world.old }
    requires next { IfSome frames.old.frame (λ f. f.at + 1 < 2 ^ 64) }
    requires there { 2 ≤ length (stack_of frames.old.frame) }
    ensures row { IfOk result (λ e. Runs p.now (loading element index object) e
        frames.old frames.new world.old world.new) }
    ensures kept { OnOk result (IsKept p.now world.old world.new) }
{
    match find_element(world, p, element, index, object) {
        Sought::NoRow => Ok(Effect::NoRow),
        Sought::Outside => {
            let thrown = throw(world, alloc, p, Fault::ArrayIndexOutOfBoundsException)?;
            Ok(thrown)
        }
        Sought::Element(value) => {
            if frames.fits(2, value) {
                frames.put(2, value);
                Ok(Effect::Goes)
            } else {
                Ok(Effect::NoRow)
            }
        }
    }
}

/// `iaload` and the like.
pub fn load_element(
    frames: &mut Frames,
    world: &mut World,
    alloc: Global,
    p: &Program,
    element: Element,
) -> Result<Effect, Memory>
    requires world { IsWorldOf p.now world.old }
    requires next { IfSome frames.old.frame (λ f. f.at + 1 < 2 ^ 64) }
    ensures row { IfOk result (λ e. Runs p.now (taking_element element) e
        frames.old frames.new world.old world.new) }
    ensures kept { OnOk result (IsKept p.now world.old world.new) }
{
    let Some(index) = int_at(frames, 0) else {
        return Ok(Effect::NoRow);
    };
    let Some(reference) = reference_at(frames, 1) else {
        return Ok(Effect::NoRow);
    };
    match reference {
        Some(object) => {
            let done = load_from(frames, world, alloc, p, element, index, object)?;
            Ok(done)
        }
        None => {
            let thrown = throw(world, alloc, p, Fault::NullPointerException)?;
            Ok(thrown)
        }
    }
}

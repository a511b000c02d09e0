//! New arrays, and the length of an array (JVMS 6.5).

ghost use Rattle.std.specs.Prelude.{◌≡◌, ◌||◌, ◌+◌, ◌<◌, ◌≤◌, ◌^◌, length, IfOk, IfSome, OnOk};
ghost use Rattle.program_rules.specs.Kinds.{is_int_kind, is_long_kind};
ghost use Rattle.machine_rules.specs.NewObjects.{new_array};
ghost use Rattle.class_link.specs.Symbols.{kind_of};
ghost use Rattle.jvm_frames.specs.Frames.{stack_of};
ghost use Rattle.jvm_world.specs.View.{IsWorldOf, IsKept};
ghost use Rattle.jvm_rows.specs.Effects.{Runs};
ghost use Rattle.jvm_rows.specs.Making.{size_in, made_row, array_row, primitive_array_row, length_row, length_of_row};

use crate::made::{int_value, push_made, put_within, without_room};
use crate::{Effect, int_at, reference_at, throw};
use class_model::{Kind, Memory};
use class_table::Program;
use jvm_frames::Frames;
use jvm_world::World;
use program_rules::{Fault, Value};
use std::alloc::Global;

// A count that isn't below 0.
fn size_in(count: i32) -> Option<u32>
    ensures { result ≡ size_in count }
{
    if count < 0 {
        return None;
    }
    Some(count as u32)
}

fn is_primitive(kind: &Kind) -> bool
    ensures { result ≡ (is_int_kind (kind_of kind.now) || is_long_kind (kind_of kind.now)) }
{
    match kind {
        Kind::Ref(_) => false,
        Kind::Boolean | Kind::Byte | Kind::Char | Kind::Short | Kind::Int | Kind::Long => true,
    }
}

// An array of so many elements is pushed in the place of its count.
fn push_array(
    frames: &mut Frames,
    world: &mut World,
    p: &Program,
    kind: Kind,
    len: u32,
) -> Result<Effect, Memory>
    requires world { IsWorldOf p.now world.old }
    requires next { IfSome frames.old.frame (λ f. f.at + 1 < 2 ^ 64) }
    requires there { 1 ≤ length (stack_of frames.old.frame) }
    ensures row { IfOk result (λ e. Runs p.now
        (made_row (λ q w. new_array q w (kind_of kind) len) 1)
        e frames.old frames.new world.old world.new) }
    ensures kept { OnOk result (IsKept p.now world.old world.new) }
{
    if !frames.fits(1, Value::Null) {
        let there = world.has_room(p, 2, len as usize);
        return Ok(without_room(world, p, there));
    }
    let made = world.new_array(p, kind, len)?;
    Ok(push_made(frames, 1, made))
}

/// `anewarray` of elements of a kind, once their class was resolved.
pub fn make_array(
    frames: &mut Frames,
    world: &mut World,
    alloc: Global,
    p: &Program,
    kind: Kind,
) -> Result<Effect, Memory>
    requires world { IsWorldOf p.now world.old }
    requires next { IfSome frames.old.frame (λ f. f.at + 1 < 2 ^ 64) }
    ensures row { IfOk result (λ e. Runs p.now (array_row (kind_of kind)) e
        frames.old frames.new world.old world.new) }
    ensures kept { OnOk result (IsKept p.now world.old world.new) }
{
    let Some(count) = int_at(frames, 0) else {
        return Ok(Effect::NoRow);
    };
    match size_in(count) {
        Some(len) => {
            let done = push_array(frames, world, p, kind, len)?;
            Ok(done)
        }
        None => {
            let thrown = throw(world, alloc, p, Fault::NegativeArraySizeException)?;
            Ok(thrown)
        }
    }
}

/// `newarray`, which names a primitive kind.
pub fn make_primitive_array(
    frames: &mut Frames,
    world: &mut World,
    alloc: Global,
    p: &Program,
    kind: Kind,
) -> Result<Effect, Memory>
    requires world { IsWorldOf p.now world.old }
    requires next { IfSome frames.old.frame (λ f. f.at + 1 < 2 ^ 64) }
    ensures row { IfOk result (λ e. Runs p.now (primitive_array_row (kind_of kind)) e
        frames.old frames.new world.old world.new) }
    ensures kept { OnOk result (IsKept p.now world.old world.new) }
{
    if !is_primitive(&kind) {
        return Ok(Effect::NoRow);
    }
    let done = make_array(frames, world, alloc, p, kind)?;
    Ok(done)
}

// The length of an array is pushed in its place.
fn push_length(frames: &mut Frames, world: &World, p: &Program, object: u32) -> Effect
    requires world { IsWorldOf p.now world.now }
    requires next { IfSome frames.old.frame (λ f. f.at + 1 < 2 ^ 64) }
    requires there { 1 ≤ length (stack_of frames.old.frame) }
    ensures { Runs p.now (length_of_row object) result
        frames.old frames.new world.now world.now }
{
    match world.array_length(p, object) {
        Some(len) => {
            let value = int_value(len);
            put_within(frames, 1, value)
        }
        None => Effect::NoRow,
    }
}

/// `arraylength`.
pub fn array_length(
    frames: &mut Frames,
    world: &mut World,
    alloc: Global,
    p: &Program,
) -> Result<Effect, Memory>
    requires world { IsWorldOf p.now world.old }
    requires next { IfSome frames.old.frame (λ f. f.at + 1 < 2 ^ 64) }
    ensures row { IfOk result (λ e.
        Runs p.now length_row e frames.old frames.new world.old world.new) }
    ensures kept { OnOk result (IsKept p.now world.old world.new) }
{
    let Some(reference) = reference_at(frames, 0) else {
        return Ok(Effect::NoRow);
    };
    match reference {
        Some(object) => Ok(push_length(frames, world, p, object)),
        None => {
            let thrown = throw(world, alloc, p, Fault::NullPointerException)?;
            Ok(thrown)
        }
    }
}

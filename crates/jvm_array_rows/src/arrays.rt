//! `multianewarray`, once its class was resolved (JVMS 6.5).

ghost use Rattle.std.specs.Prelude.{◌≡◌, ◌+◌, ◌<◌, ◌≤◌, ◌^◌, length, IfOk, IfSome, OnOk};
ghost use Rattle.program_rules.specs.Names.{class_behind};
ghost use Rattle.class_table.specs.Table.{name_at};
ghost use Rattle.jvm_frames.specs.Frames.{stack_of};
ghost use Rattle.jvm_world.specs.View.{IsWorldOf, IsKept, Allocates};
ghost use Rattle.jvm_rows.specs.Effects.{Runs};
ghost use Rattle.jvm_array_rows.specs.Built.{making};
ghost use Rattle.jvm_array_rows.specs.Rows.{made_arrays_row, counted_row, dimensioned_row, arrays_row};

use crate::building::build;
use crate::counts::{counts_on, has_negative, sizes_of};
use crate::dimensions::has_dimensions;
use crate::room::{has_room, has_room_in};
use class_model::{ClassId, Memory, Name};
use class_table::Program;
use jvm_frames::Frames;
use jvm_rows::{Effect, push_made, throw, without_room};
use jvm_world::World;
use machine_rules::Stop;
use program_rules::{Fault, Value};
use std::alloc::Global;

// Arrays of arrays are made; the number of the outer one. There is none where the heap would be
// passed, and then the run is over.
fn build_in(
    world: &mut World,
    alloc: Global,
    p: &Program,
    name: &Name,
    counts: &[u32],
) -> Result<Option<u32>, Memory>
    requires world { IsWorldOf p.now world.old }
    requires there { 1 ≤ length counts.now }
    ensures made { IfOk result (λ x. Allocates p.now world.old world.new
        (making name.now counts.now world.old.limits) x) }
    ensures kept { OnOk result (IsKept p.now world.old world.new) }
{
    if !has_room(world.heap.words(), counts, world.limits.heap) {
        world.end(p, Stop::HeapPassed);
        return Ok(None);
    }
    let number = world.heap.count() + 1;
    build(&mut world.heap, alloc, name.as_slice(), counts)?;
    Ok(Some(number))
}

// Arrays of arrays are pushed in the place of their counts.
fn push_arrays(
    frames: &mut Frames,
    world: &mut World,
    alloc: Global,
    p: &Program,
    name: &Name,
    counts: &[u32],
    count: usize,
) -> Result<Effect, Memory>
    requires world { IsWorldOf p.now world.old }
    requires next { IfSome frames.old.frame (λ f. f.at + 1 < 2 ^ 64) }
    requires there { count ≤ length (stack_of frames.old.frame) }
    requires some { 1 ≤ length counts.now }
    ensures row { IfOk result (λ e. Runs p.now (made_arrays_row name.now count counts.now) e
        frames.old frames.new world.old world.new) }
    ensures kept { OnOk result (IsKept p.now world.old world.new) }
{
    if !frames.fits(count, Value::Null) {
        let there = has_room_in(world, p, counts);
        return Ok(without_room(world, p, there));
    }
    let made = build_in(world, alloc, p, name, counts)?;
    Ok(push_made(frames, count, made))
}

// The same by counts that may be below 0.
fn make_counted(
    frames: &mut Frames,
    world: &mut World,
    alloc: Global,
    p: &Program,
    name: &Name,
    counts: &[i32],
    count: usize,
) -> Result<Effect, Memory>
    requires world { IsWorldOf p.now world.old }
    requires next { IfSome frames.old.frame (λ f. f.at + 1 < 2 ^ 64) }
    requires there { count ≤ length (stack_of frames.old.frame) }
    requires some { 1 ≤ length counts.now }
    ensures row { IfOk result (λ e. Runs p.now (counted_row name.now count counts.now) e
        frames.old frames.new world.old world.new) }
    ensures kept { OnOk result (IsKept p.now world.old world.new) }
{
    if has_negative(counts) {
        let thrown = throw(world, alloc, p, Fault::NegativeArraySizeException)?;
        return Ok(thrown);
    }
    let sizes = sizes_of(alloc, counts)?;
    let done = push_arrays(frames, world, alloc, p, name, &sizes, count)?;
    Ok(done)
}

// The same by counts on the stack.
fn make_dimensioned(
    frames: &mut Frames,
    world: &mut World,
    alloc: Global,
    p: &Program,
    name: &Name,
    count: usize,
) -> Result<Effect, Memory>
    requires world { IsWorldOf p.now world.old }
    requires next { IfSome frames.old.frame (λ f. f.at + 1 < 2 ^ 64) }
    requires some { 1 ≤ count }
    ensures row { IfOk result (λ e. Runs p.now (dimensioned_row name.now count) e
        frames.old frames.new world.old world.new) }
    ensures kept { OnOk result (IsKept p.now world.old world.new) }
{
    let read = counts_on(alloc, frames, count)?;
    match read {
        Some(counts) => {
            let done = make_counted(frames, world, alloc, p, name, &counts, count)?;
            Ok(done)
        }
        None => Ok(Effect::NoRow),
    }
}

/// `multianewarray` of an array by its name and the class behind it, by so many dimensions.
pub fn make_arrays(
    frames: &mut Frames,
    world: &mut World,
    alloc: Global,
    p: &Program,
    name: &Name,
    class: ClassId,
    dimensions: u8,
) -> Result<Effect, Memory>
    requires world { IsWorldOf p.now world.old }
    requires next { IfSome frames.old.frame (λ f. f.at + 1 < 2 ^ 64) }
    requires class { class.0 < length p.now }
    requires named { name_at p.now class.0 ≡ class_behind name.now }
    ensures row { IfOk result (λ e. Runs p.now (arrays_row name.now dimensions) e
        frames.old frames.new world.old world.new) }
    ensures kept { OnOk result (IsKept p.now world.old world.new) }
{
    let count = dimensions as usize;
    if count == 0 {
        return Ok(Effect::NoRow);
    }
    let info = p.info(class);
    let named = info.name();
    let behind = named.as_slice();
    let text = name.as_slice();
    if !has_dimensions(behind, text, count) {
        return Ok(Effect::NoRow);
    }
    let done = make_dimensioned(frames, world, alloc, p, name, count)?;
    Ok(done)
}

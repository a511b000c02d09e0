//! `checkcast` and `instanceof` of an object, once the class was resolved (JVMS 6.5).

ghost use Rattle.std.specs.Prelude.{◌≡◌, ◌+◌, ◌<◌, ◌≤◌, ◌^◌, length, IfOk, IfSome, OnOk};
ghost use Rattle.class_table.specs.Table.{look};
ghost use Rattle.jvm_frames.specs.Frames.{stack_of};
ghost use Rattle.jvm_world.specs.View.{IsWorldOf, IsKept};
ghost use Rattle.jvm_rows.specs.Effects.{Runs};
ghost use Rattle.jvm_type_rows.specs.Instances.{TellsInstance, cast_end_row, cast_found_row, test_found_row, truth_value};

use crate::instance::is_kind_within;
use class_model::{Memory, Name};
use class_table::Program;
use jvm_frames::Frames;
use jvm_rows::{Effect, put_within, throw};
use jvm_world::World;
use program_rules::{Fault, Value};
use std::alloc::Global;

/// Whether the object of a number is of a class, an interface or an array type; none where there is
/// no such object.
pub fn is_instance(
    alloc: Global,
    world: &World,
    p: &Program,
    object: u32,
    name: &Name,
) -> Result<Option<bool>, Memory>
    ensures { IfOk result (λ is. TellsInstance p.now world.now object name.now is) }
{
    match world.object(p, object) {
        Some(found) => {
            let within = is_kind_within(alloc, p, &found.kind, name)?;
            Ok(Some(within))
        }
        None => Ok(None),
    }
}

// What `checkcast` ends with: the frame goes on, or a ClassCastException is thrown.
fn end_cast(
    frames: &mut Frames,
    world: &mut World,
    alloc: Global,
    p: &Program,
    passes: bool,
) -> Result<Effect, Memory>
    requires world { IsWorldOf p.now world.old }
    requires next { IfSome frames.old.frame (λ f. f.at + 1 < 2 ^ 64) }
    ensures row { IfOk result (λ e. Runs p.now (cast_end_row passes) e
        frames.old frames.new world.old world.new) }
    ensures kept { OnOk result (IsKept p.now world.old world.new) }
{
    if passes {
        frames.advance(0);
        return Ok(Effect::Goes);
    }
    let thrown = throw(world, alloc, p, Fault::ClassCastException)?;
    Ok(thrown)
}

/// `checkcast` of an object to a class, an interface or an array type by its name.
pub fn check_cast(
    frames: &mut Frames,
    world: &mut World,
    alloc: Global,
    p: &Program,
    name: &Name,
    object: u32,
) -> Result<Effect, Memory>
    requires world { IsWorldOf p.now world.old }
    requires next { IfSome frames.old.frame (λ f. f.at + 1 < 2 ^ 64) }
    ensures row { IfOk result (λ e. Runs p.now (cast_found_row (look p.now) name.now object) e
        frames.old frames.new world.old world.new) }
    ensures kept { OnOk result (IsKept p.now world.old world.new) }
{
    let answer = is_instance(alloc, world, p, object, name)?;
    match answer {
        Some(passes) => {
            let done = end_cast(frames, world, alloc, p, passes)?;
            Ok(done)
        }
        None => Ok(Effect::NoRow),
    }
}

/// 1 or 0, as `instanceof` gives it.
pub fn truth(b: bool) -> Value
    ensures { result ≡ truth_value b }
{
    if b { Value::Int(1) } else { Value::Int(0) }
}

/// `instanceof` of an object and a class, an interface or an array type by its name.
pub fn test_instance(
    frames: &mut Frames,
    world: &World,
    alloc: Global,
    p: &Program,
    name: &Name,
    object: u32,
) -> Result<Effect, Memory>
    requires next { IfSome frames.old.frame (λ f. f.at + 1 < 2 ^ 64) }
    requires there { 1 ≤ length (stack_of frames.old.frame) }
    ensures { IfOk result (λ e. Runs p.now (test_found_row (look p.now) name.now object) e
        frames.old frames.new world.now world.now) }
{
    let answer = is_instance(alloc, world, p, object, name)?;
    match answer {
        Some(of) => {
            let value = truth(of);
            Ok(put_within(frames, 1, value))
        }
        None => Ok(Effect::NoRow),
    }
}

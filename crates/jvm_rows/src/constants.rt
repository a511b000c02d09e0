//! `ldc` of a text and of a class (JVMS 6.5).

ghost use Rattle.std.specs.Prelude.{◌+◌, ◌<◌, ◌^◌, IfOk, IfSome, OnOk};
ghost use Rattle.jvm_world.specs.View.{IsWorldOf, IsKept};
ghost use Rattle.jvm_rows.specs.Effects.{Runs};
ghost use Rattle.jvm_rows.specs.Making.{text_row, class_row};

use crate::Effect;
use crate::made::{push_made, without_room};
use class_model::{Memory, Name};
use class_table::Program;
use jvm_frames::Frames;
use jvm_world::World;
use program_rules::Value;
use std::alloc::Global;

/// `ldc` of a text: equal texts are one object.
pub fn load_text(
    frames: &mut Frames,
    world: &mut World,
    p: &Program,
    text: &Name,
) -> Result<Effect, Memory>
    requires world { IsWorldOf p.now world.old }
    requires next { IfSome frames.old.frame (λ f. f.at + 1 < 2 ^ 64) }
    ensures row { IfOk result (λ e. Runs p.now (text_row text.now) e
        frames.old frames.new world.old world.new) }
    ensures kept { OnOk result (IsKept p.now world.old world.new) }
{
    if !frames.fits(0, Value::Null) {
        let there = world.has_room_for_literal(p, text);
        return Ok(without_room(world, p, there));
    }
    let made = world.literal(p, text)?;
    Ok(push_made(frames, 0, made))
}

/// `ldc` of a class or an array type, once its class was resolved.
pub fn load_class(
    frames: &mut Frames,
    world: &mut World,
    alloc: Global,
    p: &Program,
    name: &Name,
) -> Result<Effect, Memory>
    requires world { IsWorldOf p.now world.old }
    requires next { IfSome frames.old.frame (λ f. f.at + 1 < 2 ^ 64) }
    ensures row { IfOk result (λ e. Runs p.now (class_row name.now) e
        frames.old frames.new world.old world.new) }
    ensures kept { OnOk result (IsKept p.now world.old world.new) }
{
    if !frames.fits(0, Value::Null) {
        let there = world.has_room_for_class(p, name);
        return Ok(without_room(world, p, there));
    }
    let made = world.class_object(alloc, p, name)?;
    Ok(push_made(frames, 0, made))
}

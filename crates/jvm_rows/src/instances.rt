//! `new`, once its class was resolved and begun (JVMS 6.5).

ghost use Rattle.std.specs.Prelude.{◌≡◌, [], ◌+◌, ◌<◌, ◌≤◌, ◌^◌, length, IfOk, IfSome, OnOk};
ghost use Rattle.program_rules.specs.Names.{Name};
ghost use Rattle.program_rules.specs.Programs.{Family};
ghost use Rattle.jvm_world.specs.View.{IsWorldOf, IsKept};
ghost use Rattle.jvm_rows.specs.Effects.{Runs};
ghost use Rattle.jvm_rows.specs.Making.{made_row, makes_plain, instance_row, AreInstances};

use crate::made::{push_made, without_room};
use crate::{Effect, throw};
use class_model::{ClassId, Memory, Seq};
use class_table::Program;
use jvm_frames::Frames;
use jvm_values::{ObjKind, Object};
use jvm_world::World;
use program_rules::{Fault, Value};
use std::alloc::Global;

// An object of a class with these values.
fn plain_object(alloc: Global, class: ClassId, values: Seq<Value>) -> Object
    ensures { result
        ≡ record { kind = ObjKind.Plain class; values = values; text = []; items = [] } }
{
    Object {
        kind: ObjKind::Plain(class),
        values,
        text: Seq::new(alloc),
        items: Seq::new(alloc),
    }
}

// An object with these values is pushed, which takes one word and so many more.
fn push_instance(
    frames: &mut Frames,
    world: &mut World,
    alloc: Global,
    p: &Program,
    class: ClassId,
    values: Seq<Value>,
    more: u64,
) -> Result<Effect, Memory>
    requires world { IsWorldOf p.now world.old }
    requires next { IfSome frames.old.frame (λ f. f.at + 1 < 2 ^ 64) }
    requires slots { length values ≤ 1 + more }
    ensures row { IfOk result (λ e. Runs p.now (made_row (makes_plain p.now class.0 values more) 0)
        e frames.old frames.new world.old world.new) }
    ensures kept { OnOk result (IsKept p.now world.old world.new) }
{
    if !frames.fits(0, Value::Null) {
        let there = world.has_room(p, 1, more as usize);
        return Ok(without_room(world, p, there));
    }
    let object = plain_object(alloc, class, values);
    let made = world.allocate(p, object, more)?;
    Ok(push_made(frames, 0, made))
}

/// `new` of a class whose instances hold these values at first and take one word and so many more.
pub fn make_instance(
    frames: &mut Frames,
    world: &mut World,
    alloc: Global,
    p: &Program,
    class: ClassId,
    is_abstract: bool,
    values: Seq<Value>,
    more: u64,
) -> Result<Effect, Memory>
    requires world { IsWorldOf p.now world.old }
    requires next { IfSome frames.old.frame (λ f. f.at + 1 < 2 ^ 64) }
    requires slots { length values ≤ 1 + more }
    ensures row { IfOk result (λ e. (n : Name) (c : Family) →
        AreInstances p.now class.0 is_abstract values more n c →
        Runs p.now (instance_row n c) e frames.old frames.new world.old world.new) }
    ensures kept { OnOk result (IsKept p.now world.old world.new) }
{
    if is_abstract {
        let thrown = throw(world, alloc, p, Fault::InstantiationError)?;
        return Ok(thrown);
    }
    let done = push_instance(frames, world, alloc, p, class, values, more)?;
    Ok(done)
}

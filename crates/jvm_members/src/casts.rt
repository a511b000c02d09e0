//! `checkcast` and `instanceof` (JVMS 6.5). Null passes or is of no class, and then nothing is
//! resolved.

ghost use Rattle.std.specs.Prelude.{◌+◌, ◌<◌, ◌^◌, IfOk, IfSome, OnOk};
ghost use Rattle.class_link.specs.declared.linked.Entry.TheVariants.{Class};
ghost use Rattle.jvm_link.specs.References.{IsEntry, IsTableOf};
ghost use Rattle.jvm_world.specs.View.{IsWorldOf, IsKept};
ghost use Rattle.jvm_members.specs.Whole.{RunsWhole};
ghost use Rattle.jvm_members.specs.ClassRows.{cast_whole, test_whole};

use crate::classes::{Purpose, use_class};
use class_model::{ClassId, Memory, Name};
use class_table::Program;
use jvm_frames::Frames;
use jvm_link::References;
use jvm_rows::{Effect, put_within, reference_at};
use jvm_type_rows::truth;
use jvm_world::World;
use std::alloc::Global;

/// `checkcast` to the class, the interface or the array type at an index of a class's constant
/// pool.
#[tactic(auto, using(crate::proofs::Casted::no_cast, crate::proofs::Casted::cast_of, crate::proofs::Casted::cast_null))]
pub fn check_cast(
    frames: &mut Frames,
    world: &mut World,
    alloc: Global,
    p: &Program,
    references: &mut References,
    class: ClassId,
    index: u32,
    name: &Name,
) -> Result<Effect, Memory>
    requires world { IsWorldOf p.now world.old }
    requires table { IsTableOf p.now references.old }
    requires entry { IsEntry p.now class.0 index (Class name.now) }
    requires next { IfSome frames.old.frame (λ f. f.at + 1 < 2 ^ 64) }
    ensures row { IfOk result (λ e. RunsWhole p.now (cast_whole p.now name.now) e
        frames.old frames.new world.old world.new) }
    ensures kept { OnOk result (IsKept p.now world.old world.new) }
    ensures table { IsTableOf p.now references.new }
{
    let Some(reference) = reference_at(frames, 0) else {
        return Ok(Effect::NoRow);
    };
    match reference {
        Some(object) => {
            let how = Purpose::Cast(object);
            let done = use_class(frames, world, alloc, p, references, class, index, name, how)?;
            Ok(done)
        }
        None => {
            frames.advance(0);
            Ok(Effect::Goes)
        }
    }
}

/// `instanceof` of the class, the interface or the array type at an index of a class's constant
/// pool.
#[tactic(auto, using(crate::proofs::Casted::no_test, crate::proofs::Casted::test_of, crate::proofs::Casted::test_null))]
pub fn test_instance(
    frames: &mut Frames,
    world: &mut World,
    alloc: Global,
    p: &Program,
    references: &mut References,
    class: ClassId,
    index: u32,
    name: &Name,
) -> Result<Effect, Memory>
    requires world { IsWorldOf p.now world.old }
    requires table { IsTableOf p.now references.old }
    requires entry { IsEntry p.now class.0 index (Class name.now) }
    requires next { IfSome frames.old.frame (λ f. f.at + 1 < 2 ^ 64) }
    ensures row { IfOk result (λ e. RunsWhole p.now (test_whole p.now name.now) e
        frames.old frames.new world.old world.new) }
    ensures kept { OnOk result (IsKept p.now world.old world.new) }
    ensures table { IsTableOf p.now references.new }
{
    let Some(reference) = reference_at(frames, 0) else {
        return Ok(Effect::NoRow);
    };
    match reference {
        Some(object) => {
            let how = Purpose::Test(object);
            let done = use_class(frames, world, alloc, p, references, class, index, name, how)?;
            Ok(done)
        }
        None => {
            let value = truth(false);
            Ok(put_within(frames, 1, value))
        }
    }
}

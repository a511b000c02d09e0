//! `multianewarray` (JVMS 6.5), as a whole row.

ghost use Rattle.std.specs.Prelude.{IfOk, IfSome, OnOk};
ghost use Rattle.class_link.specs.declared.linked.Entry.TheVariants as entry;
ghost use Rattle.jvm_link.specs.References.{IsEntry, IsTableOf};
ghost use Rattle.jvm_world.specs.View.{IsWorldOf, IsKept};
ghost use Rattle.jvm_members.specs.Whole.{RunsWhole};
ghost use Rattle.jvm_act.specs.Acts.{arrays_whole};
ghost use Rattle.jvm_act.specs.Standing.{HasNext};

use class_model::{ClassId, Memory, Name};
use class_table::Program;
use jvm_frames::Frames;
use jvm_link::References;
use jvm_members::resolve_class;
use jvm_rows::{Effect, throw};
use jvm_world::World;
use std::alloc::Global;

/// `multianewarray` of the class at an index of a class's constant pool.
#[tactic(auto, using(crate::proofs::Rows::arrays_made, crate::proofs::Rows::arrays_lost))]
pub fn make_arrays(
    frames: &mut Frames,
    world: &mut World,
    alloc: Global,
    p: &Program,
    references: &mut References,
    class: ClassId,
    index: u32,
    name: &Name,
    dimensions: u8,
) -> Result<Effect, Memory>
    requires world { IsWorldOf p.now world.old }
    requires table { IsTableOf p.now references.old }
    requires entry { IsEntry p.now class.0 index (entry.Class name.now) }
    requires next { IfSome frames.old.frame HasNext }
    ensures row { IfOk result (λ e. RunsWhole p.now (arrays_whole p.now name.now dimensions) e
        frames.old frames.new world.old world.new) }
    ensures kept { OnOk result (IsKept p.now world.old world.new) }
    ensures table { IsTableOf p.now references.new }
{
    let found = resolve_class(world, p, references, class, index, name)?;
    match found {
        Ok(id) => {
            let done = jvm_array_rows::make_arrays(frames, world, alloc, p, name, id, dimensions)?;
            Ok(done)
        }
        Err(fault) => {
            let thrown = throw(world, alloc, p, fault)?;
            Ok(thrown)
        }
    }
}

//! The store of a reference into an array.

ghost use Rattle.std.specs.Prelude.{◌+◌, ◌<◌, ◌^◌, IfOk, IfSome, OnOk};
ghost use Rattle.program_rules.specs.declared.operation.Element.TheVariants.{ReferenceElement};
ghost use Rattle.class_table.specs.Table.{look};
ghost use Rattle.jvm_world.specs.View.{IsWorldOf, IsKept};
ghost use Rattle.jvm_run.specs.Below.{Runs};
ghost use Rattle.jvm_run.specs.Below.{storing_element};

use class_model::Memory;
use class_table::Program;
use jvm_frames::Frames;
use jvm_run::Effect;
use jvm_world::World;
use std::alloc::Global;

/// `store_reference` of `jvm_type_rows`.
pub fn store_reference(
    frames: &mut Frames,
    world: &mut World,
    alloc: Global,
    p: &Program,
) -> Result<Effect, Memory>
    requires world { IsWorldOf p.now world.old }
    requires next { IfSome frames.old.frame (λ f. f.at + 1 < 2 ^ 64) }
    ensures row { IfOk result (λ e. Runs p.now (storing_element (look p.now) ReferenceElement) e
        frames.old frames.new world.old world.new) }
    ensures kept { OnOk result (IsKept p.now world.old world.new) }
{
    let done = jvm_run::store_reference(frames, world, alloc, p)?;
    Ok(done)
}

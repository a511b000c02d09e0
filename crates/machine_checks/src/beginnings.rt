//! What stands before the use of a class.

ghost use Rattle.std.specs.Prelude.{◌<◌, length, IfOk};
ghost use Rattle.class_table.specs.Faults.{HasRightKinds};
ghost use Rattle.class_table.specs.Table.{look};
ghost use Rattle.jvm_world.specs.View.{IsWorldOf};
ghost use Rattle.jvm_run.specs.Below.{IsWithin, TellsNeed};

use class_family::Walker;
use class_model::{ClassId, Memory};
use class_table::Program;
use jvm_run::Need;
use jvm_world::World;

/// `need_for` of `jvm_initialization`.
pub fn need_for(
    world: &World,
    p: &Program,
    walker: &mut Walker,
    class: ClassId,
) -> Result<Need, Memory>
    requires world { IsWorldOf p.now world.now }
    requires kinds { HasRightKinds (look p.now) }
    requires class { class.0 < length p.now }
    ensures need { IfOk result (TellsNeed p.now world.now class.0) }
    ensures within { IfOk result (IsWithin p.now) }
{
    let need = jvm_run::need_for(world, p, walker, class)?;
    Ok(need)
}

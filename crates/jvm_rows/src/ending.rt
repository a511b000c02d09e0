// How rows end.

ghost use Rattle.std.specs.Prelude.{◌≡◌, true, OnOk, IfOk};
ghost use Rattle.jvm_frames.specs.Frames.{NumberedFrames};
ghost use Rattle.jvm_world.specs.View.{IsWorldOf, IsKept};
ghost use Rattle.jvm_rows.specs.Effects.{Runs, is_row};
ghost use Rattle.jvm_rows.specs.Rows.{throwing};

use crate::effect::Effect;
use class_model::Memory;
use class_table::Program;
use jvm_world::World;
use program_rules::Fault;
use std::alloc::Global;

/// The machine throws an exception of its own, or the run is over.
pub fn throw(world: &mut World, alloc: Global, p: &Program, fault: Fault) -> Result<Effect, Memory>
    requires { IsWorldOf p.now world.old }
    ensures throws { IfOk result (λ e. (fs : NumberedFrames) →
        Runs p.now (throwing fault) e fs fs world.old world.new) }
    ensures done { IfOk result (λ e. is_row e ≡ true) }
    ensures kept { OnOk result (IsKept p.now world.old world.new) }
{
    let thrown = world.throw(alloc, p, fault)?;
    match thrown {
        Some(x) => Ok(Effect::Throws(x)),
        None => Ok(Effect::Goes),
    }
}

//! The rows of monitors, and `athrow` (JVMS 6.5).

ghost use Rattle.std.specs.Prelude.{◌≡◌, ℕ, ◌+◌, ◌<◌, ◌^◌, IfOk, IfSome, OnOk};
ghost use Rattle.jvm_world.specs.Holding.{opened};
ghost use Rattle.jvm_world.specs.View.{IsWorldOf, IsKept};
ghost use Rattle.jvm_rows.specs.Effects.{Runs};
ghost use Rattle.jvm_rows.specs.Rows.{entering, exiting, throwing_object};

use crate::effect::Effect;
use crate::ending::throw;
use crate::stack::reference_at;
use class_model::Memory;
use class_table::Program;
use jvm_frames::Frames;
use jvm_world::World;
use program_rules::Fault;
use std::alloc::Global;

/// `monitorenter`. A run has fewer steps than would fill the count of an object.
pub fn enter_monitor(
    frames: &mut Frames,
    world: &mut World,
    alloc: Global,
    p: &Program,
) -> Result<Effect, Memory>
    requires world { IsWorldOf p.now world.old }
    requires next { IfSome frames.old.frame (λ f. f.at + 1 < 2 ^ 64) }
    requires few { (x : ℕ) → opened x world.old.monitors + 1 < 2 ^ 64 }
    ensures row { IfOk result (λ e.
        Runs p.now entering e frames.old frames.new world.old world.new) }
    ensures kept { OnOk result (IsKept p.now world.old world.new) }
{
    let Some(reference) = reference_at(frames, 0) else {
        return Ok(Effect::NoRow);
    };
    match reference {
        Some(object) => {
            world.enter_monitor(p, object)?;
            frames.advance(1);
            Ok(Effect::Goes)
        }
        None => {
            let thrown = throw(world, alloc, p, Fault::NullPointerException)?;
            Ok(thrown)
        }
    }
}

/// `monitorexit`: an IllegalMonitorStateException where none is open.
pub fn exit_monitor(
    frames: &mut Frames,
    world: &mut World,
    alloc: Global,
    p: &Program,
) -> Result<Effect, Memory>
    requires world { IsWorldOf p.now world.old }
    requires next { IfSome frames.old.frame (λ f. f.at + 1 < 2 ^ 64) }
    ensures row { IfOk result (λ e.
        Runs p.now exiting e frames.old frames.new world.old world.new) }
    ensures kept { OnOk result (IsKept p.now world.old world.new) }
{
    let Some(reference) = reference_at(frames, 0) else {
        return Ok(Effect::NoRow);
    };
    match reference {
        Some(object) => {
            if !world.exit_monitor(p, object) {
                let illegal = throw(world, alloc, p, Fault::IllegalMonitorStateException)?;
                return Ok(illegal);
            }
            frames.advance(1);
            Ok(Effect::Goes)
        }
        None => {
            let thrown = throw(world, alloc, p, Fault::NullPointerException)?;
            Ok(thrown)
        }
    }
}

/// `athrow`.
pub fn throw_object(
    frames: &Frames,
    world: &mut World,
    alloc: Global,
    p: &Program,
) -> Result<Effect, Memory>
    requires { IsWorldOf p.now world.old }
    ensures row { IfOk result (λ e.
        Runs p.now throwing_object e frames.now frames.now world.old world.new) }
    ensures kept { OnOk result (IsKept p.now world.old world.new) }
{
    let Some(reference) = reference_at(frames, 0) else {
        return Ok(Effect::NoRow);
    };
    match reference {
        Some(object) => Ok(Effect::Throws(object)),
        None => {
            let thrown = throw(world, alloc, p, Fault::NullPointerException)?;
            Ok(thrown)
        }
    }
}

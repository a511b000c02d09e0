//! `tableswitch` and `lookupswitch` (JVMS 6.5).

ghost use Rattle.std.specs.Prelude.{◌≡◌, ◌+◌, ◌<◌, ◌^◌, ◌-ℤ◌, List, drop, IfSome};
ghost use Rattle.program_rules.specs.Instructions as def;
ghost use Rattle.machine_rules.specs.Steps.{table_target};
ghost use Rattle.class_link.specs.Info.{Info};
ghost use Rattle.jvm_state.specs.Tops.{TakesInt};
ghost use Rattle.jvm_frames.specs.Frames.{stack_of};
ghost use Rattle.jvm_world.specs.declared.world.World as code;
ghost use Rattle.jvm_rows.specs.Effects.{Runs};
ghost use Rattle.jvm_rows.specs.Plain.{RunsAs, IsJump, jump_row};

use crate::{Effect, int_at};
use jvm_frames::Frames;
use jvm_state::{Op, key_target, target_at};

// The target of a number in a table.
fn target_of(default: u32, low: i32, targets: &[u32], z: i32) -> u32
    ensures { result ≡ table_target default targets.now (z -ℤ low) }
{
    let place = z as i64 - low as i64;
    target_at(default, targets, place)
}

// A jump that an int takes.
#[tactic(auto, unfolding(jvm_state::specs::Ops::instruction_of, jvm_state::specs::Ops::left_by))]
fn jump_on(z: i32, to: u32) -> Op
    ensures { IsJump z to result }
{
    if z == 0 {
        Op::IfEqual(to)
    } else {
        Op::IfUnequal(to)
    }
}

// The int on the top is taken off, and the frame goes on at an instruction.
fn jump(frames: &mut Frames, z: i32, to: u32) -> Effect
    requires next { IfSome frames.old.frame (λ f. f.at + 1 < 2 ^ 64) }
    requires top { TakesInt (drop 0 (stack_of frames.old.frame)) z
        (drop 1 (stack_of frames.old.frame)) }
    ensures { (p : List Info) (w : code.World) →
        Runs p (jump_row to) result frames.old frames.new w w }
{
    let op = jump_on(z, to);
    if frames.act(op, &[]) {
        Effect::Goes
    } else {
        Effect::NoRow
    }
}

/// `tableswitch` by where the default goes, the lowest key, and where each key from there on goes.
pub fn switch_by_table(frames: &mut Frames, default: u32, low: i32, targets: &[u32]) -> Effect
    requires next { IfSome frames.old.frame (λ f. f.at + 1 < 2 ^ 64) }
    ensures { (p : List Info) (w : code.World) →
        RunsAs p (def.TableSwitch default low targets.now) result frames.old frames.new w w }
{
    let Some(z) = int_at(frames, 0) else {
        return Effect::NoRow;
    };
    let to = target_of(default, low, targets, z);
    jump(frames, z, to)
}

/// `lookupswitch` by where the default goes, and each key with where it goes. The keys are looked
/// at in their order.
pub fn switch_by_keys(frames: &mut Frames, default: u32, keys: &[(i32, u32)]) -> Effect
    requires next { IfSome frames.old.frame (λ f. f.at + 1 < 2 ^ 64) }
    ensures { (p : List Info) (w : code.World) →
        RunsAs p (def.LookupSwitch default keys.now) result frames.old frames.new w w }
{
    let Some(z) = int_at(frames, 0) else {
        return Effect::NoRow;
    };
    let to = key_target(default, keys, z);
    jump(frames, z, to)
}

//! The words of a stack, and the arguments on it.

ghost use Rattle.std.specs.Prelude.{◌≡◌, ◌+◌, ◌<◌, ◌≤◌, ◌^◌, length, IfOk, IsSomeAnd};
ghost use Rattle.machine_rules.specs.Steps.{pops_two};
ghost use Rattle.jvm_state.specs.Slots.{IsStack};
ghost use Rattle.jvm_state.specs.Rows.{Lays};
ghost use Rattle.jvm_frames.specs.Frames.{HasWords, args_on};

use class_model::Memory;
use jvm_frames::{Args, Frames};
use jvm_state::Slot;
use program_rules::Value;
use std::alloc::Global;

/// `pop_two` of `jvm_state`.
pub fn pop_two(operands: &[Slot], at: usize, sp: usize, top: usize) -> Option<(usize, usize)>
    requires next { at + 1 < 2 ^ 64 }
    requires stack { IsStack operands.now sp }
    requires within { sp ≤ top }
    requires room { top ≤ length operands.now }
    ensures { Lays pops_two top at sp
        operands.now operands.now result }
{
    let (to, left) = jvm_state::pop_two(operands, at, sp, top)?;
    Some((to, left))
}

/// `Frames::values` of `jvm_frames`.
pub fn values(frames: &Frames, alloc: Global, args: Args) -> Result<Vec<Value>, Memory>
    requires { HasWords args.count args.words frames.now }
    ensures { IfOk result (λ vs.
        IsSomeAnd frames.now.frame (λ f. vs.items ≡ args_on args.count f.stack)) }
{
    let values = frames.values(alloc, args)?;
    Ok(values)
}

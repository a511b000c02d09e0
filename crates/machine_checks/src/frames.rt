//! Frames in one store.

ghost use Rattle.std.specs.Prelude.{◌≡◌, ◌+◌, ◌<◌, ◌≤◌, ◌^◌, length, IfOk, IfSome};
ghost use Rattle.jvm_state.specs.Stores.{IsEntered};
ghost use Rattle.jvm_frames.specs.Frames.{HasWords, IsCut};
ghost use Rattle.jvm_frames.specs.Staying.{StayOn};

use class_model::{ClassId, Memory};
use jvm_frames::{Args, Frames};
use jvm_state::{Frame, Op, Slot};

/// A frame for a method on those below a place.
pub fn enter(
    slots: &mut Vec<Slot>,
    from: usize,
    args: u16,
    class: ClassId,
    method: u32,
    max_locals: u16,
    max_stack: u16,
) -> Result<Frame, Memory>
    requires args { args ≤ from }
    requires fit { args ≤ max_locals }
    requires there { from ≤ length slots.old.items }
    requires room { from + 131072 < 2 ^ 64 }
    ensures { IfOk result (λ f.
        IsEntered from args class.0 method max_locals max_stack slots.old.items slots.new.items f) }
{
    let f = jvm_state::enter(slots, from, args, class, method, max_locals, max_stack)?;
    Ok(f)
}

/// Arguments are taken off the stack of the running frame.
pub fn cut(frames: &mut Frames, args: Args)
    requires { HasWords args.count args.words frames.old }
    ensures { IsCut args.count frames.old frames.new }
{
    let kept = 0;
    if args.count == kept {
        return;
    }
    frames.cut(args);
}

/// Steps of the running frame, so many at most.
pub fn stay(frames: &mut Frames, ops: &[Op], longs: &[i64], marks: &[bool], limit: u64) -> u64
    ensures limit { result ≤ limit }
    ensures stays { IfSome frames.old.frame (λ f.
        StayOn ops.now longs.now marks.now result f frames.old frames.new) }
{
    let taken = frames.stay(ops, longs, marks, limit);
    taken
}

// A value is pushed in the running frame.

ghost use Rattle.std.specs.Prelude.{◌≡◌, ◌+◌, ◌<◌, ◌≤◌, ◌^◌, length};
ghost use Rattle.machine_rules.specs.Effects.{NoRow, pushes};
ghost use Rattle.jvm_state.specs.Slots.{IsStack};
ghost use Rattle.jvm_state.specs.Rows.{Lays};
ghost use Rattle.jvm_state.specs.Stores.{IsFrame, StepsBy};
ghost use Rattle.jvm_frames.specs.Frames.{pushing};

use jvm_state::{Frame, Slot, push_int, push_long, push_null, push_reference};
use program_rules::Value;

// A value is pushed, and the next instruction comes; none, and nothing changes, where there is no
// room.
#[inline(always)]
fn push_value(
    v: Value,
    operands: &mut [Slot],
    at: usize,
    sp: usize,
    top: usize,
) -> Option<(usize, usize)>
    requires next { at + 1 < 2 ^ 64 }
    requires stack { IsStack operands.old sp }
    requires within { sp ≤ top }
    requires room { top ≤ length operands.old }
    ensures { Lays (pushing v top) top at sp operands.old operands.new result }
{
    match v {
        Value::Int(z) => push_int(z, operands, at, sp, top),
        Value::Long(z) => push_long(z, operands, at, sp, top),
        Value::Ref(x) => push_reference(x, operands, at, sp, top),
        Value::Null => push_null(operands, at, sp, top),
    }
}

/// Pushes a value on the stack of a frame, which goes on to its next instruction. False leaves
/// everything as it was: there is no room.
#[inline(always)]
pub fn push_in(v: Value, slots: &mut [Slot], f: &mut Frame) -> bool
    requires next { f.old.at + 1 < 2 ^ 64 }
    requires frame { IsFrame slots.old f.old }
    ensures pushes { StepsBy (pushing v f.old.top) (λ w f fs. NoRow) result
        slots.old slots.new f.old f.new }
    ensures len { length slots.new ≡ length slots.old }
{
    let (low, high) = slots.split_at_mut(f.floor);
    let (_, locals) = low.split_at_mut(f.base);
    let (operands, _) = high.split_at_mut(f.top);
    let _ = locals.len();
    match push_value(v, operands, f.at, f.sp, f.top) {
        Some((at, sp)) => {
            f.at = at;
            f.sp = sp;
            true
        }
        None => false,
    }
}

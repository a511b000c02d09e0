//! Rows of the frame alone.

ghost use Rattle.std.specs.Prelude.{◌≡◌, ◌+◌, ◌<◌, ◌≤◌, ◌^◌, length};
ghost use Rattle.program_rules.specs.declared.value.Value.{Value};
ghost use Rattle.machine_rules.specs.Effects.{pushes};
ghost use Rattle.machine_rules.specs.Steps.{stores_int};
ghost use Rattle.jvm_state.specs.Slots.{IsStack};
ghost use Rattle.jvm_state.specs.Rows.{Acts, Lays};
ghost use Rattle.jvm_state.specs.Stores.{IsFrame, RunsIn};

use jvm_state::{Frame, Op, Slot, act_in};

/// `istore`.
pub fn store_int(
    n: u16,
    locals: &mut [Slot],
    operands: &[Slot],
    at: usize,
    sp: usize,
    top: usize,
) -> Option<(usize, usize)>
    requires next { at + 1 < 2 ^ 64 }
    requires stack { IsStack operands.now sp }
    requires within { sp ≤ top }
    requires room { top ≤ length operands.now }
    ensures { Acts (λ w f fs. stores_int w f fs n) top at sp
        locals.old operands.now locals.new operands.now result }
{
    let (to, left) = jvm_state::store_int(n, locals, operands, at, sp, top)?;
    Some((to, left))
}

/// `aconst_null`.
pub fn push_null(operands: &mut [Slot], at: usize, sp: usize, top: usize) -> Option<(usize, usize)>
    requires next { at + 1 < 2 ^ 64 }
    requires stack { IsStack operands.old sp }
    requires within { sp ≤ top }
    requires room { top ≤ length operands.old }
    ensures { Lays (λ w f fs. pushes w f fs top Value.Null f.stack) top at sp
        operands.old operands.new result }
{
    let room = top;
    jvm_state::push_null(operands, at, sp, room)
}

/// An instruction in the frame that it belongs to.
pub fn act(op: Op, longs: &[i64], slots: &mut [Slot], f: &mut Frame) -> bool
    requires next { f.old.at + 1 < 2 ^ 64 }
    requires frame { IsFrame slots.old f.old }
    ensures { RunsIn longs.now op result slots.old slots.new f.old f.new }
{
    if act_in(op, longs, slots, f) {
        return true;
    }
    false
}

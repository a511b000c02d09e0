//! One store of slots for the locals and operands of all frames.

ghost use Rattle.std.specs.Prelude.{◌≡◌, ◌+◌, ◌-◌, ◌<◌, ◌≤◌, ◌^◌, true, [], ◌++◌, take, length, replicate, OnOk, IfOk};
ghost use Rattle.jvm_state.specs.declared.slot.Slot.TheVariants.{Unset};
ghost use Rattle.jvm_state.specs.Ops.{is_alone};
ghost use Rattle.jvm_state.specs.Stores.{IsFrame, RunsIn, IsEntered};

use crate::acting::act;
use crate::frame::Frame;
use crate::op::Op;
use crate::slot::Slot;
use class_model::{ClassId, Memory};

/// Does what an instruction does in the frame that it belongs to, where that touches the top frame
/// alone. False leaves everything as it was.
pub fn act_in(op: Op, longs: &[i64], slots: &mut [Slot], f: &mut Frame) -> bool
    requires next { f.old.at + 1 < 2 ^ 64 }
    requires frame { IsFrame slots.old f.old }
    ensures runs { RunsIn longs.now op result slots.old slots.new f.old f.new }
    ensures alone { result ≡ true → is_alone op ≡ true }
    ensures len { length slots.new ≡ length slots.old }
{
    let (low, high) = slots.split_at_mut(f.floor);
    let (_, locals) = low.split_at_mut(f.base);
    let (operands, _) = high.split_at_mut(f.top);
    match act::<false>(op, longs, locals, operands, f.at, f.sp, f.top) {
        Some((at, sp)) => {
            f.at = at;
            f.sp = sp;
            true
        }
        None => false,
    }
}

/// Puts a frame for a method on those below a place. The uppermost slots below it are its first
/// locals. Where memory runs out nothing below the place has changed.
pub fn enter(
    slots: &mut Vec<Slot>,
    from: usize,
    args: u16,
    class: ClassId,
    method: u32,
    max_locals: u16,
    max_stack: u16,
) -> Result<Frame, Memory>
    requires args { args ≤ from }
    requires fit { args ≤ max_locals }
    requires there { from ≤ length slots.old.items }
    requires room { from + 131072 < 2 ^ 64 }
    ensures entered { IfOk result (λ f.
        IsEntered from args class.0 method max_locals max_stack slots.old.items slots.new.items f) }
    ensures below { take from slots.new.items ≡ take from slots.old.items }
    ensures more { length slots.old.items ≤ length slots.new.items }
{
    let base = from - args as usize;
    let floor = base + max_locals as usize;
    let end = floor + max_stack as usize;
    make_slots(slots, from, end)?;
    unset(slots, from, floor);
    Ok(Frame {
        class,
        method,
        at: 0,
        base,
        floor,
        sp: 0,
        top: max_stack as usize,
    })
}

// Makes sure of so many slots, and leaves those that are there.
fn make_slots(slots: &mut Vec<Slot>, from: usize, end: usize) -> Result<(), Memory>
    requires { from ≤ length slots.old.items }
    ensures below { take from slots.new.items ≡ take from slots.old.items }
    ensures more { length slots.old.items ≤ length slots.new.items }
    ensures room { OnOk result (end ≤ length slots.new.items) }
{
    while slots.len() < end {
        slots.push(Slot::Unset)?;
    }
    Ok(())
}

// Leaves the slots from one place up to another one unset.
fn unset(slots: &mut Vec<Slot>, from: usize, to: usize)
    requires order { from ≤ to }
    requires within { to ≤ length slots.old.items }
    ensures unset { take to slots.new.items
        ≡ take from slots.old.items ++ replicate (to - from) Unset }
    ensures len { length slots.new.items ≡ length slots.old.items }
{
    for place in from..to {
        slots[place] = Slot::Unset;
    }
}

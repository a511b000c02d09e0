// Steps of the running frame alone, many at once.

ghost use Rattle.std.specs.Prelude.{◌≡◌, ℕ, ◌<◌, ◌≤◌, true, Some, length, slice_get, take};
ghost use Rattle.std.specs.Bool.{OnTrue};
ghost use Rattle.jvm_state.specs.Slots.{IsStack};
ghost use Rattle.jvm_state.specs.Stores.{IsFrame, IsSameFrame};
ghost use Rattle.jvm_frames.specs.Frames.{numbered};
ghost use Rattle.jvm_frames.specs.Staying.{Stays, in_slots};

use jvm_state::{Frame, Op, Slot, act};

// How many instructions have a place both in the code and among the marks.
fn count_of(ops: &[Op], marks: &[bool]) -> usize
    ensures ops { result ≤ length ops.now }
    ensures marks { result ≤ length marks.now }
{
    if ops.len() < marks.len() {
        return ops.len();
    }
    marks.len()
}

// Whether an instruction has a mark.
#[inline(always)]
fn is_marked(marks: &[bool], at: usize) -> bool
    requires { at < length marks.now }
    ensures { OnTrue result (slice_get marks.now at ≡ Some true) }
{
    marks[at]
}

// The instruction of a number.
#[inline(always)]
fn op_at(ops: &[Op], at: usize) -> Op
    requires { at < length ops.now }
    ensures { slice_get ops.now at ≡ Some result }
{
    ops[at]
}

// Takes steps of a frame in its slots, so many at most: the steps, the instruction and the words
// behind them.
fn stay_in_slots(
    ops: &[Op],
    longs: &[i64],
    marks: &[bool],
    locals: &mut [Slot],
    operands: &mut [Slot],
    first: usize,
    words: usize,
    top: usize,
    limit: u64,
) -> (u64, usize, usize)
    requires stack { IsStack operands.old words }
    requires within { words ≤ top }
    requires room { top ≤ length operands.old }
    ensures limit { result.0 ≤ limit }
    ensures stays { (class method : ℕ) →
        Stays ops.now longs.now marks.now result.0
        (in_slots class method first top locals.old operands.old words)
        (in_slots class method result.1 top locals.new operands.new result.2) }
    ensures stack { IsStack operands.new result.2 }
    ensures within { result.2 ≤ top }
    ensures locals { length locals.new ≡ length locals.old }
    ensures operands { length operands.new ≡ length operands.old }
{
    let count = count_of(ops, marks);
    let mut left = limit;
    let mut at = first;
    let mut sp = words;
    while left > 0 {
        if at >= count || !is_marked(marks, at) {
            break;
        }
        let op = op_at(ops, at);
        match act::<true>(op, longs, locals, operands, at, sp, top) {
            Some((to, rest)) => {
                at = to;
                sp = rest;
                left -= 1;
            }
            None => return (limit - left, at, sp),
        }
    }
    (limit - left, at, sp)
}

/// Takes steps of a frame that stands in a store, so many at most, and says how many. Each is of an
/// instruction that touches this frame alone and has a mark.
pub fn stay_in(
    ops: &[Op],
    longs: &[i64],
    marks: &[bool],
    slots: &mut [Slot],
    f: &mut Frame,
    limit: u64,
) -> u64
    requires { IsFrame slots.old f.old }
    ensures limit { result ≤ limit }
    ensures stays { Stays ops.now longs.now marks.now result (numbered slots.old f.old)
        (numbered slots.new f.new) }
    ensures frame { IsFrame slots.new f.new }
    ensures same { IsSameFrame f.old f.new }
    ensures below { take f.old.base slots.new ≡ take f.old.base slots.old }
    ensures len { length slots.new ≡ length slots.old }
{
    let (low, high) = slots.split_at_mut(f.floor);
    let (_, locals) = low.split_at_mut(f.base);
    let (operands, _) = high.split_at_mut(f.top);
    let (taken, at, sp) = stay_in_slots(
        ops, longs, marks, locals, operands, f.at, f.sp, f.top, limit,
    );
    f.at = at;
    f.sp = sp;
    taken
}

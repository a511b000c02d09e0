// A frame goes on at a handler of an exception (JVMS 2.10).

ghost use Rattle.std.specs.Prelude.{◌≡◌, ◌≤◌, length};
ghost use Rattle.jvm_state.specs.Stores.{IsFrame, StepsTo};
ghost use Rattle.jvm_frames.specs.Frames.{landing};

use crate::pushing::push_in;
use jvm_state::{Frame, Slot};
use program_rules::Value;

/// A frame goes on at an instruction, with this object as the only item of its stack.
pub fn land_in(object: u32, to: usize, slots: &mut [Slot], f: &mut Frame)
    requires frame { IsFrame slots.old f.old }
    requires room { 1 ≤ f.old.top }
    ensures lands { StepsTo (landing object to) slots.old slots.new f.old f.new }
    ensures len { length slots.new ≡ length slots.old }
{
    f.at = 0;
    f.sp = 0;
    if !push_in(Value::Ref(object), slots, f) {
        unreachable!()
    }
    f.at = to;
}

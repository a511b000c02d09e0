//! Switches (JVMS 6.5, `tableswitch`, `lookupswitch`), by their numbers in a code.

ghost use Rattle.std.specs.Prelude.{◌≡◌, List, IfSome, slice_get};
ghost use Rattle.std.specs.Option.{option_copied};
ghost use Rattle.class_link.specs.Info.{Info};
ghost use Rattle.class_link.specs.View.{table_of, lookup_of};
ghost use Rattle.class_link.specs.declared.linked.Entry.{Entry};
ghost use Rattle.jvm_code.specs.Decoded.{named_by};
ghost use Rattle.jvm_rows.specs.Plain.{RunsAs};
ghost use Rattle.jvm_world.specs.declared.world.World as code;
ghost use Rattle.jvm_act.specs.Groups.{switch_in};
ghost use Rattle.jvm_act.specs.Standing.{HasNext};

use crate::groups::SwitchOp;
use crate::methods::MethodCode;
use class_link::Switch;
use jvm_frames::Frames;
use jvm_rows::{Effect, switch_by_keys, switch_by_table};

// The switch of a number.
fn switch_of(switches: &[Switch], number: u32) -> Option<&Switch>
    ensures { option_copied result ≡ slice_get switches.now number }
{
    switches.get(number as usize)
}

// `tableswitch` of the table of a number.
fn take_table(frames: &mut Frames, switches: &[Switch], number: u32) -> Effect
    requires next { IfSome frames.old.frame HasNext }
    ensures { (p : List Info) (w : code.World) →
        RunsAs p (table_of (slice_get switches.now number)) result frames.old frames.new w w }
{
    match switch_of(switches, number) {
        Some(Switch::Table(default, low, targets)) => {
            switch_by_table(frames, *default, *low, targets.as_slice())
        }
        Some(Switch::Lookup(_, _)) => Effect::NoRow,
        None => Effect::NoRow,
    }
}

// `lookupswitch` of the keys of a number.
fn take_keys(frames: &mut Frames, switches: &[Switch], number: u32) -> Effect
    requires next { IfSome frames.old.frame HasNext }
    ensures { (p : List Info) (w : code.World) →
        RunsAs p (lookup_of (slice_get switches.now number)) result frames.old frames.new w w }
{
    match switch_of(switches, number) {
        Some(Switch::Lookup(default, keys)) => switch_by_keys(frames, *default, keys.as_slice()),
        Some(Switch::Table(_, _, _)) => Effect::NoRow,
        None => Effect::NoRow,
    }
}

/// Jumps by a switch of the method's code.
pub fn take_switch(frames: &mut Frames, method: &MethodCode, op: SwitchOp) -> Effect
    requires next { IfSome frames.old.frame HasNext }
    ensures { (p : List Info) (es : List Entry) (w : code.World) →
        RunsAs p (switch_in (named_by es method.now.linked.switches) op) result
        frames.old frames.new w w }
{
    let switches = method.linked.switches.as_slice();
    match op {
        SwitchOp::Table(number) => take_table(frames, switches, number),
        SwitchOp::Lookup(number) => take_keys(frames, switches, number),
    }
}

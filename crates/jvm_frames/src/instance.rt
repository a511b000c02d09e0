// The instance of a test, on which a frame begins where none runs.

ghost use Rattle.std.specs.Prelude.{◌≡◌, ◌≤◌, length, take, IfOk};
ghost use Rattle.machine_rules.specs.Effects.{locals_of};
ghost use Rattle.jvm_state.specs.Slots.{locals_in};
ghost use Rattle.jvm_frames.specs.Frames.{instance_args, instance_words};

use class_model::Memory;
use jvm_state::Slot;

/// The instance of a test as the lowest slot, if there is one; the number of slots that it takes.
pub fn put_instance(slots: &mut Vec<Slot>, instance: Option<u32>) -> Result<u16, Memory>
    ensures words { IfOk result (λ n. n ≡ instance_words instance) }
    ensures within { IfOk result (λ n. n ≤ length slots.new.items) }
    ensures locals { IfOk result (λ n.
        locals_in (take n slots.new.items) ≡ locals_of (instance_args instance)) }
{
    let Some(number) = instance else {
        return Ok(0);
    };
    if slots.len() == 0 {
        slots.push(Slot::Ref(number))?;
    } else {
        slots[0] = Slot::Ref(number);
    }
    Ok(1)
}

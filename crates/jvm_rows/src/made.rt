// How rows end that push a value, or the reference to something new.

ghost use Rattle.std.specs.Prelude.{◌≡◌, ◌+◌, ◌<◌, ◌≤◌, ◌^◌, ℕ, List, length, true, false, IfSome};
ghost use Rattle.program_rules.specs.declared.value.Value.TheVariants.{Null};
ghost use Rattle.class_link.specs.Info.{Info};
ghost use Rattle.jvm_frames.specs.Frames.{NumberedFrames, stack_of, has_room_for};
ghost use Rattle.jvm_world.specs.declared.world.World as code;
ghost use Rattle.jvm_world.specs.View.{IsWorldOf, IsKept, Allocates, TellsMade};
ghost use Rattle.jvm_rows.specs.Effects.{Runs};
ghost use Rattle.jvm_rows.specs.Rows.{putting};
ghost use Rattle.jvm_rows.specs.Making.{Make, made_row};

use crate::Effect;
use class_table::Program;
use jvm_frames::Frames;
use jvm_world::World;
use machine_rules::Stop;
use program_rules::Value;

/// A value is pushed in the place of so many. Where it has no room, no row applies.
pub fn put_within(frames: &mut Frames, count: usize, value: Value) -> Effect
    requires next { IfSome frames.old.frame (λ f. f.at + 1 < 2 ^ 64) }
    requires there { count ≤ length (stack_of frames.old.frame) }
    ensures { (p : List Info) (w : code.World) →
        Runs p (putting count value) result frames.old frames.new w w }
{
    if frames.fits(count, value) {
        frames.put(count, value);
        Effect::Goes
    } else {
        Effect::NoRow
    }
}

/// An int as a value.
pub fn int_value(z: i32) -> Value
    ensures { result ≡ Value.Int z }
{
    Value::Int(z)
}

/// The reference to what was made is pushed in the place of so many values; where nothing was, the
/// run is over.
pub fn push_made(frames: &mut Frames, count: usize, made: Option<u32>) -> Effect
    requires next { IfSome frames.old.frame (λ f. f.at + 1 < 2 ^ 64) }
    requires there { count ≤ length (stack_of frames.old.frame) }
    requires room { IfSome frames.old.frame (λ f. has_room_for count Null f ≡ true) }
    ensures { (p : List Info) (w u : code.World) (make : Make) →
        Allocates p w u (make w.limits) made →
        Runs p (made_row make count) result frames.old frames.new w u }
{
    match made {
        Some(object) => {
            frames.put(count, Value::Ref(object));
            Effect::Goes
        }
        None => Effect::Goes,
    }
}

/// What a row comes to that would push a reference for which the stack has no room: the heap's
/// limit counts first.
pub fn without_room(world: &mut World, p: &Program, there: bool) -> Effect
    requires world { IsWorldOf p.now world.old }
    ensures row { (make : Make) (count : ℕ) (fs : NumberedFrames) →
        TellsMade p.now world.old (make world.old.limits) there →
        IfSome fs.frame (λ f. has_room_for count Null f ≡ false) →
        Runs p.now (made_row make count) result fs fs world.old world.new }
    ensures kept { IsKept p.now world.old world.new }
{
    if there {
        return Effect::NoRow;
    }
    world.end(p, Stop::HeapPassed);
    Effect::Goes
}

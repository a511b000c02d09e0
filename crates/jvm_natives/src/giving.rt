//! The frame that called goes on with what the call gave, or the run is over.

ghost use Rattle.std.specs.Prelude.{◌≡◌, ◌+◌, ◌<◌, ◌≤◌, ◌^◌, ℕ, List, Option, length, IfSome};
ghost use Rattle.program_rules.specs.Instructions.{MethodRef as Reference};
ghost use Rattle.machine_rules.specs.declared.machine.Limits.{Limits};
ghost use Rattle.machine_rules.specs.State as def;
ghost use Rattle.class_link.specs.Info.{Info};
ghost use Rattle.jvm_frames.specs.Frames.{HasWords, stack_of};
ghost use Rattle.jvm_world.specs.declared.world.World.{World as WorldOf};
ghost use Rattle.jvm_world.specs.View.{IsWorldOf, IsKept, Allocates};
ghost use Rattle.jvm_invokes.specs.declared.invoked.Invoked.TheVariants.{Turned};
ghost use Rattle.jvm_invokes.specs.Invoked.{Invokes};
ghost use Rattle.jvm_natives.specs.Completed.{HasGoneOn};
ghost use Rattle.jvm_natives.specs.Ends.{giving, filling, making};

use class_table::Program;
use jvm_frames::{Args, Frames};
use jvm_unwind::Turn;
use jvm_world::World;
use machine_rules::Stop;
use program_rules::Value;

// A value is pushed in the place of so many. Where it has no room, no row applies.
#[tactic(auto, using(crate::proofs::Given::put_gives, crate::proofs::Given::put_on, crate::proofs::Given::full_gives, crate::proofs::Given::stays))]
fn put(frames: &mut Frames, count: usize, v: Value) -> Turn
    requires next { IfSome frames.old.frame (λ f. f.at + 1 < 2 ^ 64) }
    requires there { count ≤ length (stack_of frames.old.frame) }
    ensures row { (p : List Info) (r : Reference) (w : WorldOf) →
        Invokes p r (giving count (Option.Some v)) (Turned result) frames.old frames.new w w }
    ensures frames { HasGoneOn frames.old frames.new }
{
    if !frames.fits(count, v) {
        return Turn::NoRow;
    }
    frames.put(count, v);
    Turn::Goes
}

/// The frame goes on with a result, if there is one, in the place of so many values.
#[tactic(auto, using(crate::proofs::Given::advance_gives, crate::proofs::Given::advance_on))]
pub fn give(frames: &mut Frames, count: usize, v: Option<Value>) -> Turn
    requires next { IfSome frames.old.frame (λ f. f.at + 1 < 2 ^ 64) }
    requires there { count ≤ length (stack_of frames.old.frame) }
    ensures row { (p : List Info) (r : Reference) (w : WorldOf) →
        Invokes p r (giving count v) (Turned result) frames.old frames.new w w }
    ensures frames { HasGoneOn frames.old frames.new }
{
    match v {
        Some(v) => {
            let turn = put(frames, count, v);
            turn
        }
        None => {
            frames.advance(count);
            Turn::Goes
        }
    }
}

/// The run is over, since the heap would be passed, and the arguments are gone.
#[tactic(auto, using(crate::proofs::Given::cut_fills, crate::proofs::Given::cut_on))]
pub fn fill(frames: &mut Frames, world: &mut World, p: &Program, args: Args) -> Turn
    requires world { IsWorldOf p.now world.old }
    requires args { HasWords args.count args.words frames.old }
    ensures row { (r : Reference) → Invokes p.now r (filling args.count) (Turned result)
        frames.old frames.new world.old world.new }
    ensures frames { HasGoneOn frames.old frames.new }
    ensures kept { IsKept p.now world.old world.new }
{
    frames.cut(args);
    world.end(p, Stop::HeapPassed);
    Turn::Goes
}

/// The reference to a new object is pushed in the place of the arguments. Where none was made the
/// run is over already, and they are gone.
#[tactic(auto, using(crate::proofs::Given::made_gives, crate::proofs::Given::none_made, crate::proofs::Given::cut_on, crate::proofs::Given::count_there))]
pub fn give_made(frames: &mut Frames, args: Args, made: Option<u32>) -> Turn
    requires next { IfSome frames.old.frame (λ f. f.at + 1 < 2 ^ 64) }
    requires args { HasWords args.count args.words frames.old }
    ensures row { (p : List Info) (r : Reference) (w u : WorldOf)
        (make : Limits → def.World → Option (def.World × ℕ)) → u.limits ≡ w.limits →
        Allocates p w u (make w.limits) made →
        Invokes p r (making args.count make) (Turned result) frames.old frames.new w u }
    ensures frames { HasGoneOn frames.old frames.new }
{
    match made {
        Some(object) => {
            let turn = put(frames, args.count, Value::Ref(object));
            turn
        }
        None => {
            frames.cut(args);
            Turn::Goes
        }
    }
}

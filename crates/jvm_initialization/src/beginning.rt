//! The begin of a class (JVMS 5.5, steps 6 to 10).

ghost use Rattle.std.specs.Prelude.{◌≡◌, ◌<◌, None, Some, length, IfOk, OnOk};
ghost use Rattle.jvm_world.specs.View.{IsWorldOf, IsKept};
ghost use Rattle.jvm_unwind.specs.Turns.{frames_of, ComesAt};
ghost use Rattle.jvm_initialization.specs.Begins.{begin_at, initializer_of, entered, beginning, AreWhole, StaysOrBegins, IsInitializerAt};

use crate::constants::set_constants;
use crate::initializer::{Initializer, initializer_of};
use class_model::{ClassId, Memory};
use class_table::Program;
use jvm_frames::{Args, Frames};
use jvm_world::World;
use machine_rules::InitState;
use program_rules::Fault;
use std::alloc::Global;

// The frame of an initializer is put on the others.
#[tactic(auto, using(crate::proofs::Beginnings::no_args, crate::proofs::Beginnings::entered_on, crate::proofs::Beginnings::entered_first, crate::proofs::Beginnings::no_callers))]
fn enter(frames: &mut Frames, class: ClassId, i: Initializer) -> Result<(), Memory>
    requires { AreWhole frames.old }
    ensures { OnOk result (frames.new ≡ entered class.0 i frames.old) }
{
    match frames.place() {
        Some(_) => {
            let args = Args { count: 0, words: 0 };
            frames.enter(args, class, i.place, i.max_locals, i.max_stack)?;
            Ok(())
        }
        None => {
            frames.begin(None, class, i.place, i.max_locals, i.max_stack)?;
            Ok(())
        }
    }
}

// The begin of a class that has no initializer.
fn begin_done(
    frames: &Frames,
    world: &mut World,
    alloc: Global,
    p: &Program,
    class: ClassId,
) -> Result<(), Memory>
    requires world { IsWorldOf p.now world.old }
    requires class { class.0 < length p.now }
    requires initializer { (begin_at p.now class.0).initializer ≡ None }
    ensures row { OnOk result (ComesAt p.now world.old world.new (frames_of p.now frames.now) None
        (beginning p.now world.old.limits class.0 frames.now)) }
    ensures kept { OnOk result (IsKept p.now world.old world.new) }
{
    let _ = frames.below();
    let set = set_constants(world, alloc, p, class)?;
    if !set {
        return Ok(());
    }
    world.mark(p, class, InitState::Done)?;
    Ok(())
}

// The begin of a class that has an initializer.
#[tactic(auto, using(crate::proofs::Beginnings::stays_on))]
fn begin_running(
    frames: &mut Frames,
    world: &mut World,
    alloc: Global,
    p: &Program,
    class: ClassId,
    i: Initializer,
) -> Result<Option<u32>, Memory>
    requires world { IsWorldOf p.now world.old }
    requires class { class.0 < length p.now }
    requires whole { AreWhole frames.old }
    requires initializer { IsInitializerAt p.now class.0 i }
    ensures row { IfOk result (λ x. ComesAt p.now world.old world.new
        (frames_of p.now frames.new) x (beginning p.now world.old.limits class.0 frames.old)) }
    ensures frames { OnOk result (StaysOrBegins p.now frames.old frames.new) }
    ensures kept { OnOk result (IsKept p.now world.old world.new) }
{
    if !frames.has_room(world.limits.depth) {
        let thrown = world.throw(alloc, p, Fault::StackOverflowError)?;
        return Ok(thrown);
    }
    let set = set_constants(world, alloc, p, class)?;
    if !set {
        return Ok(None);
    }
    world.mark(p, class, InitState::Running)?;
    enter(frames, class, i)?;
    Ok(None)
}

/// The begin of a class, in one step: its static fields get their constants, and the frame of its
/// initializer is put on the others, or it is done at once where it has none. What is thrown, if
/// anything is: a StackOverflowError past the depth of the run, where the class stays as it was.
/// Where the heap would be passed nothing is set, and the run is over.
#[tactic(auto, using(crate::proofs::Beginnings::stays_on))]
pub fn begin(
    frames: &mut Frames,
    world: &mut World,
    alloc: Global,
    p: &Program,
    class: ClassId,
) -> Result<Option<u32>, Memory>
    requires world { IsWorldOf p.now world.old }
    requires class { class.0 < length p.now }
    requires whole { AreWhole frames.old }
    ensures row { IfOk result (λ x. ComesAt p.now world.old world.new
        (frames_of p.now frames.new) x (beginning p.now world.old.limits class.0 frames.old)) }
    ensures frames { OnOk result (StaysOrBegins p.now frames.old frames.new) }
    ensures kept { OnOk result (IsKept p.now world.old world.new) }
{
    match initializer_of(p, class) {
        Some(i) => {
            let thrown = begin_running(frames, world, alloc, p, class, i)?;
            Ok(thrown)
        }
        None => {
            begin_done(frames, world, alloc, p, class)?;
            Ok(None)
        }
    }
}

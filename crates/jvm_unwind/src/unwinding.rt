//! One step of an object that is thrown (JVMS 2.10).

ghost use Rattle.std.specs.Prelude.{◌≡◌, ◌<◌, if◌then◌else◌, List, Some, None, length, IfOk, OnOk, IfSome};
ghost use Rattle.jvm_frames.specs.Frames.{NumberedFrame, left_behind};
ghost use Rattle.jvm_world.specs.View.{IsWorldOf, IsKept};
ghost use Rattle.jvm_unwind.specs.Thrown.{IsClass};
ghost use Rattle.jvm_unwind.specs.Turns.{Turns};
ghost use Rattle.jvm_unwind.specs.Unwinding.{IsHandled, IsLeftOrOn, Passes, popping, unwinding};

use crate::CatchRow;
use crate::leaving::{fail_class, leave_script};
use crate::searching::handler;
use crate::thrown::{Thrown, thrown_at};
use crate::turn::Turn;
use class_model::{ClassId, Memory};
use class_table::Program;
use jvm_frames::Frames;
use jvm_world::World;
use std::alloc::Global;

/// What a method has for objects that are thrown in it: its exception rows by number, and whether
/// it is the initializer of its class.
#[derive(Drop)]
pub struct Handlers {
    pub rows: Vec<CatchRow>,
    pub initializes: bool,
}

// The class whose initializer a method is, if it is one.
fn initialized(class: ClassId, initializes: bool) -> Option<ClassId>
    ensures { result ≡ (if initializes then Some class else None) }
{
    if initializes { Some(class) } else { None }
}

// The object is thrown from the frames that are left; from none it leaves the script.
fn pass_on(
    frames: &Frames,
    world: &mut World,
    alloc: Global,
    p: &Program,
    object: u32,
    thrown: &Thrown,
) -> Result<Option<u32>, Memory>
    requires world { IsWorldOf p.now world.old }
    requires thrown { IsClass p.now thrown.now }
    ensures passes { IfOk result (λ x. (cs : List NumberedFrame) → frames.now ≡ left_behind cs →
        Passes p.now world.old world.new cs x
        (popping p.now world.old.limits None object thrown.now)) }
    ensures kept { OnOk result (IsKept p.now world.old world.new) }
{
    match frames.place() {
        Some(_) => Ok(Some(object)),
        None => {
            let left = leave_script(world, alloc, p, object, thrown)?;
            Ok(left)
        }
    }
}

// The running frame is popped; what is thrown from those below, if anything is.
fn pop(
    frames: &mut Frames,
    world: &mut World,
    alloc: Global,
    p: &Program,
    class: Option<ClassId>,
    object: u32,
    thrown: &Thrown,
) -> Result<Option<u32>, Memory>
    requires world { IsWorldOf p.now world.old }
    requires class { IfSome class (λ c. c.0 < length p.now) }
    requires thrown { IsClass p.now thrown.now }
    ensures passes { IfOk result (λ x. Passes p.now world.old world.new frames.old.callers x
        (popping p.now world.old.limits class object thrown.now)) }
    ensures left { OnOk result (frames.new ≡ left_behind frames.old.callers) }
    ensures kept { OnOk result (IsKept p.now world.old world.new) }
{
    frames.leave();
    match class {
        Some(class) => {
            let failed = fail_class(world, alloc, p, class, object, thrown)?;
            Ok(failed)
        }
        None => {
            let passed = pass_on(frames, world, alloc, p, object, thrown)?;
            Ok(passed)
        }
    }
}

/// An object is thrown in the running frame. The first of its method's rows that covers the
/// instruction and catches the object is entered, and the classes that are tested are consulted.
/// Without one the frame is popped, and the object is thrown in the frame below; behind the
/// initializer of a class that class has failed, and behind the last frame the object leaves the
/// script, unless the test is to throw it.
pub fn unwind(
    frames: &mut Frames,
    world: &mut World,
    alloc: Global,
    p: &Program,
    handlers: &Handlers,
    object: u32,
) -> Result<Turn, Memory>
    requires world { IsWorldOf p.now world.old }
    requires frame { IfSome frames.old.frame (IsHandled p.now handlers.now) }
    ensures row { IfOk result (λ t. Turns p.now (unwinding p.now world.old.limits object) t
        frames.old frames.new world.old world.new) }
    ensures frames { OnOk result (IsLeftOrOn frames.old frames.new) }
    ensures kept { OnOk result (IsKept p.now world.old world.new) }
{
    let Some(place) = frames.place() else {
        return Ok(Turn::NoRow);
    };
    let Some(thrown) = thrown_at(alloc, p, world, object)? else {
        return Ok(Turn::NoRow);
    };
    let to = handler(world, p, handlers.rows.as_slice(), place.at, &thrown)?;
    match to {
        Some(to) => {
            frames.land(object, to as usize);
            Ok(Turn::Goes)
        }
        None => {
            let class = initialized(place.class, handlers.initializes);
            let left = pop(frames, world, alloc, p, class, object, &thrown)?;
            Ok(Turn::of(left))
        }
    }
}

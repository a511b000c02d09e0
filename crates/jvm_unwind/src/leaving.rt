//! An object leaves a frame: the initializer of a class (JVMS 5.5, steps 10 and 11), or the last
//! one of a call of the script.

ghost use Rattle.std.specs.Prelude.{◌≡◌, ◌<◌, [], length, IfOk, OnOk};
ghost use Rattle.std.specs.Option.{option_map};
ghost use Rattle.machine_rules.specs.State as def;
ghost use Rattle.machine_rules.specs.Calls.{is_awaited, is_test_kind, is_test_call};
ghost use Rattle.jvm_world.specs.View.{call_of, Means, IsWorldOf, IsKept};
ghost use Rattle.jvm_unwind.specs.Thrown.{IsClass};
ghost use Rattle.jvm_unwind.specs.Turns.{ComesAt};
ghost use Rattle.jvm_unwind.specs.Unwinding.{Leaves, IsAwaited, failing, leaving};

use crate::searching::is_caught;
use crate::thrown::Thrown;
use crate::{Catch, catch_named};
use class_link::Shared;
use class_model::{ClassId, Memory};
use class_table::Program;
use jvm_world::World;
use machine_rules::InitState;
use program_rules::{CallKind, Fault};
use std::alloc::Global;

/// The class of an initializer has failed; what is thrown from the frames below. It is the object
/// if it is an Error, else an ExceptionInInitializerError, or none where the heap would be passed.
#[tactic(auto, using(crate::proofs::Left::kept_error))]
pub fn fail_class(
    world: &mut World,
    alloc: Global,
    p: &Program,
    class: ClassId,
    object: u32,
    thrown: &Thrown,
) -> Result<Option<u32>, Memory>
    requires world { IsWorldOf p.now world.old }
    requires class { class.0 < length p.now }
    requires thrown { IsClass p.now thrown.now }
    ensures leaves { IfOk result (λ x. Leaves p.now world.old world.new x
        (failing p.now world.old.limits class.0 object thrown.now)) }
    ensures kept { OnOk result (IsKept p.now world.old world.new) }
{
    world.mark(p, class, InitState::Failed)?;
    let error = thrown.is_error(alloc, p)?;
    if error {
        return Ok(Some(object));
    }
    let replaced = world.throw(alloc, p, Fault::ExceptionInInitializerError)?;
    Ok(replaced)
}

// Whether a call is of a test method.
fn is_test(kind: CallKind) -> bool
    ensures { result ≡ is_test_kind kind }
{
    match kind {
        CallKind::ClassWide => false,
        CallKind::Make => false,
        CallKind::Around => false,
        CallKind::TestMethod => true,
    }
}

// Whether the test method runs.
fn tests(world: &World) -> bool
    ensures { result ≡ is_test_call (option_map call_of world.now.script.running) }
{
    match world.script.running() {
        Some(call) => is_test(call.kind),
        None => false,
    }
}

/// Whether the test method runs, and an exception is to leave it.
pub fn is_awaited(world: &World, p: &Program) -> bool
    ensures { (v : def.World) → Means p.now world.now v → is_awaited v ≡ result }
{
    let _ = p.len();
    tests(world) && world.expected.is_some()
}

// The exception that is awaited, if one is.
fn awaited(alloc: Global, p: &Program, world: &World) -> Result<Option<Catch>, Memory>
    ensures { IfOk result (IsAwaited p.now world.now) }
{
    if !is_awaited(world, p) {
        return Ok(None);
    }
    match &world.expected {
        Some(name) => {
            let copied = name.copy()?;
            let shared = Shared::new(alloc, copied)?;
            let catch = catch_named(alloc, p, &shared)?;
            Ok(Some(catch))
        }
        None => Ok(None),
    }
}

/// The object leaves the script, unless it is the exception that the test method is to throw; what
/// is thrown, if anything is.
#[tactic(auto, using(crate::proofs::Left::not_awaited))]
pub fn leave_script(
    world: &mut World,
    alloc: Global,
    p: &Program,
    object: u32,
    thrown: &Thrown,
) -> Result<Option<u32>, Memory>
    requires world { IsWorldOf p.now world.old }
    requires thrown { IsClass p.now thrown.now }
    ensures leaves { IfOk result (λ x.
        ComesAt p.now world.old world.new [] x (leaving p.now object thrown.now)) }
    ensures kept { OnOk result (IsKept p.now world.old world.new) }
{
    let expected = awaited(alloc, p, world)?;
    match expected {
        Some(catch) => {
            let caught = is_caught(world, p, &catch, thrown)?;
            if !caught {
                return Ok(Some(object));
            }
            world.finish_call(p);
            Ok(None)
        }
        None => Ok(Some(object)),
    }
}

//! The next call of a test's script (this project's own).

ghost use Rattle.std.specs.Prelude.{◌≡◌, ◌<◌, None, length, IfOk, IfSome, OnOk};
ghost use Rattle.program_rules.specs.Names.{plain_descriptor};
ghost use Rattle.class_table.specs.Faults.{HasRightKinds};
ghost use Rattle.class_table.specs.Table.{look};
ghost use Rattle.jvm_lines.specs.Below.{AreFramesOf};
ghost use Rattle.jvm_lines.specs.Below.{TurnedTo};
ghost use Rattle.jvm_lines.specs.Below.{AreWhole, StaysOrBegins};
ghost use Rattle.jvm_lines.specs.Below.{IsSite};
ghost use Rattle.jvm_link.specs.Sites.{OwnDeclared};
ghost use Rattle.jvm_world.specs.View.{IsWorldOf, IsKept};
ghost use Rattle.jvm_step.specs.Steps.{CallsOwn, calling};

use crate::calling::call_fit;
use class_family::Walker;
use class_model::{ClassId, Memory, Name};
use class_table::{CallKind, Program};
use jvm_frames::Frames;
use jvm_lines::Turn;
use jvm_link::{Site, own_method};
use jvm_world::World;
use std::alloc::Global;

/// `()V`
const PLAIN: [u16; 3] = [40, 41, 86];

// The descriptor of a method without arguments and without a result.
fn plain_descriptor(alloc: Global) -> Result<Name, Memory>
    ensures { IfOk result (λ desc. desc ≡ plain_descriptor) }
{
    Name::from_slice(alloc, PLAIN.as_slice())
}

// The method of this name that a class itself declares, if it does.
#[tactic(auto, using(crate::proofs::Scripted::own_plain))]
fn own_plain(
    alloc: Global,
    p: &Program,
    class: ClassId,
    method: &Name,
) -> Result<Option<Site>, Memory>
    requires { class.0 < length p.now }
    ensures { IfOk result (OwnDeclared p.now class.0 method.now plain_descriptor) }
{
    let desc = plain_descriptor(alloc)?;
    let own = own_method(p, class, method, &desc);
    Ok(own)
}

// The method that a class itself declares is called, if it does.
#[tactic(auto, using(crate::proofs::Scripted::named_none, crate::proofs::Scripted::named_some, crate::proofs::Entered::stays))]
fn call_own(
    frames: &mut Frames,
    world: &mut World,
    alloc: Global,
    p: &Program,
    walker: &mut Walker,
    own: Option<Site>,
    kind: CallKind,
) -> Result<Turn, Memory>
    requires world { IsWorldOf p.now world.old }
    requires kinds { HasRightKinds (look p.now) }
    requires none { frames.old.frame ≡ None }
    requires whole { AreWhole frames.old }
    requires site { IfSome own (λ s. IsSite p.now s) }
    ensures row { IfOk result (λ t. CallsOwn p.now own kind t frames.new world.old world.new) }
    ensures frames { OnOk result (StaysOrBegins p.now frames.old frames.new) }
    ensures kept { OnOk result (IsKept p.now world.old world.new) }
{
    match own {
        Some(site) => {
            let turn = call_fit(frames, world, alloc, p, walker, site, kind)?;
            Ok(turn)
        }
        None => Ok(Turn::NoRow),
    }
}

/// Makes the next call of the script, where no frame runs: the method that the class of the call
/// itself declares is entered, and the call runs from now on. Where the class has to begin first,
/// that is the turn, and the call is still to come. The class and the method are looked up by name,
/// once for each call.
#[tactic(auto, using(crate::proofs::Scripted::no_script, crate::proofs::Scripted::no_class, crate::proofs::Scripted::found, crate::proofs::Scripted::own_site, crate::proofs::Scripted::first_frames, crate::proofs::Scripted::frames_behind))]
pub fn call_next(
    frames: &mut Frames,
    world: &mut World,
    alloc: Global,
    p: &Program,
    walker: &mut Walker,
) -> Result<Turn, Memory>
    requires world { IsWorldOf p.now world.old }
    requires kinds { HasRightKinds (look p.now) }
    requires none { frames.old.frame ≡ None }
    requires whole { AreWhole frames.old }
    ensures row { IfOk result (λ t. TurnedTo p.now (calling p.now world.old.limits) t
        frames.new world.old world.new) }
    ensures frames { OnOk result (AreFramesOf p.now frames.new) }
    ensures kept { OnOk result (IsKept p.now world.old world.new) }
{
    let Some(next) = world.script.next() else {
        return Ok(Turn::NoRow);
    };
    let kind = next.kind;
    let id = p.find(&next.class);
    match id {
        Some(class) => {
            let own = own_plain(alloc, p, class, &next.method)?;
            world.consult(p, class)?;
            let turn = call_own(frames, world, alloc, p, walker, own, kind)?;
            Ok(turn)
        }
        None => Ok(Turn::NoRow),
    }
}

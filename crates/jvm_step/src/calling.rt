//! A method of the script is called as the kind of the call says.

ghost use Rattle.std.specs.Prelude.{◌≡◌, None, IfOk, OnOk};
ghost use Rattle.program_rules.specs.Linked.{is_static};
ghost use Rattle.program_rules.specs.Resolution.{same_bool};
ghost use Rattle.machine_rules.specs.Script.{needs_static};
ghost use Rattle.class_table.specs.Faults.{HasRightKinds};
ghost use Rattle.class_table.specs.Table.{look};
ghost use Rattle.jvm_lines.specs.Below.{AreWhole, StaysOrBegins};
ghost use Rattle.jvm_lines.specs.Below.{IsSite};
ghost use Rattle.jvm_world.specs.View.{IsWorldOf, IsKept};
ghost use Rattle.jvm_step.specs.Steps.{StepsAt, calls_by, calls_fit, calls_on, readies, uses, uses_ready};

use crate::entering::enter;
use crate::making::make;
use class_family::Walker;
use class_model::Memory;
use class_model::flags::is_static;
use class_table::{CallKind, Program};
use jvm_frames::Frames;
use jvm_lines::{Readied, Turn, head_at, make_ready};
use jvm_link::Site;
use jvm_world::World;
use std::alloc::Global;

// Whether the class of a call is made ready first.
fn needs_static(kind: CallKind) -> bool
    ensures { result ≡ needs_static kind }
{
    match kind {
        CallKind::ClassWide => true,
        CallKind::Make => false,
        CallKind::Around => false,
        CallKind::TestMethod => false,
    }
}

// Whether a method is static as the kind of its call asks.
fn is_fit(flags: u16, kind: CallKind) -> bool
    ensures { result ≡ same_bool (is_static flags) (needs_static kind) }
{
    if is_static(flags) {
        return needs_static(kind);
    }
    !needs_static(kind)
}

// A method of the test's instance is called.
#[tactic(auto, using(crate::proofs::Readied::instance_used, crate::proofs::Readied::no_instance, crate::proofs::Entered::stays))]
fn call_on_instance(
    frames: &mut Frames,
    world: &mut World,
    alloc: Global,
    p: &Program,
    site: Site,
) -> Result<Turn, Memory>
    requires world { IsWorldOf p.now world.old }
    requires none { frames.old.frame ≡ None }
    requires whole { AreWhole frames.old }
    requires site { IsSite p.now site }
    ensures row { IfOk result (λ t. StepsAt p.now site calls_on t
        frames.new world.old world.new) }
    ensures frames { OnOk result (StaysOrBegins p.now frames.old frames.new) }
    ensures kept { OnOk result (IsKept p.now world.old world.new) }
{
    match world.instance {
        Some(x) => {
            let turn = enter(frames, world, alloc, p, site, Some(x))?;
            Ok(turn)
        }
        None => Ok(Turn::NoRow),
    }
}

/// What a call of the script does with a class, once that is ready.
#[derive(Clone, Copy)]
pub enum ClassUse {
    /// A static method of it is called.
    CallStatic,
    /// The instance of the test is made.
    MakeInstance,
}

// A class that is ready is used.
fn use_ready(
    frames: &mut Frames,
    world: &mut World,
    alloc: Global,
    p: &Program,
    site: Site,
    how: ClassUse,
) -> Result<Turn, Memory>
    requires world { IsWorldOf p.now world.old }
    requires none { frames.old.frame ≡ None }
    requires whole { AreWhole frames.old }
    requires site { IsSite p.now site }
    ensures row { IfOk result (λ t. StepsAt p.now site (uses_ready p.now site how) t
        frames.new world.old world.new) }
    ensures frames { OnOk result (StaysOrBegins p.now frames.old frames.new) }
    ensures kept { OnOk result (IsKept p.now world.old world.new) }
{
    match how {
        ClassUse::CallStatic => enter(frames, world, alloc, p, site, None),
        ClassUse::MakeInstance => make(frames, world, alloc, p, site),
    }
}

// A class is used, once it is ready.
#[tactic(auto, using(crate::proofs::Readied::ready_used, crate::proofs::Readied::ready_turned, crate::proofs::Readied::ready_same, crate::proofs::Readied::none_still, crate::proofs::Readied::whole_still, crate::proofs::Readied::begins_still))]
fn use_class(
    frames: &mut Frames,
    world: &mut World,
    alloc: Global,
    p: &Program,
    walker: &mut Walker,
    site: Site,
    how: ClassUse,
) -> Result<Turn, Memory>
    requires world { IsWorldOf p.now world.old }
    requires kinds { HasRightKinds (look p.now) }
    requires none { frames.old.frame ≡ None }
    requires whole { AreWhole frames.old }
    requires site { IsSite p.now site }
    ensures row { IfOk result (λ t. StepsAt p.now site (readies p.now (uses how)) t
        frames.new world.old world.new) }
    ensures frames { OnOk result (StaysOrBegins p.now frames.old frames.new) }
    ensures kept { OnOk result (IsKept p.now world.old world.new) }
{
    let readied = make_ready(frames, world, alloc, p, walker, site.class)?;
    match readied {
        Readied::Ready => {
            let turn = use_ready(frames, world, alloc, p, site, how)?;
            Ok(turn)
        }
        Readied::Turned(turn) => Ok(turn),
    }
}

// A method is called as the kind says.
fn call_by(
    frames: &mut Frames,
    world: &mut World,
    alloc: Global,
    p: &Program,
    walker: &mut Walker,
    site: Site,
    kind: CallKind,
) -> Result<Turn, Memory>
    requires world { IsWorldOf p.now world.old }
    requires kinds { HasRightKinds (look p.now) }
    requires none { frames.old.frame ≡ None }
    requires whole { AreWhole frames.old }
    requires site { IsSite p.now site }
    ensures row { IfOk result (λ t. StepsAt p.now site (calls_by p.now kind) t
        frames.new world.old world.new) }
    ensures frames { OnOk result (StaysOrBegins p.now frames.old frames.new) }
    ensures kept { OnOk result (IsKept p.now world.old world.new) }
{
    match kind {
        CallKind::ClassWide => {
            let how = ClassUse::CallStatic;
            use_class(frames, world, alloc, p, walker, site, how)
        }
        CallKind::Make => {
            let how = ClassUse::MakeInstance;
            use_class(frames, world, alloc, p, walker, site, how)
        }
        CallKind::Around => call_on_instance(frames, world, alloc, p, site),
        CallKind::TestMethod => call_on_instance(frames, world, alloc, p, site),
    }
}

/// A method is called as the kind says, if it is static as that asks.
#[tactic(auto, using(crate::proofs::Readied::unfit_kind, crate::proofs::Readied::fit_kind, crate::proofs::Entered::stays))]
pub fn call_fit(
    frames: &mut Frames,
    world: &mut World,
    alloc: Global,
    p: &Program,
    walker: &mut Walker,
    site: Site,
    kind: CallKind,
) -> Result<Turn, Memory>
    requires world { IsWorldOf p.now world.old }
    requires kinds { HasRightKinds (look p.now) }
    requires none { frames.old.frame ≡ None }
    requires whole { AreWhole frames.old }
    requires site { IsSite p.now site }
    ensures row { IfOk result (λ t. StepsAt p.now site (calls_fit p.now kind) t
        frames.new world.old world.new) }
    ensures frames { OnOk result (StaysOrBegins p.now frames.old frames.new) }
    ensures kept { OnOk result (IsKept p.now world.old world.new) }
{
    let head = head_at(p, site);
    if !is_fit(head.flags, kind) {
        return Ok(Turn::NoRow);
    }
    let turn = call_by(frames, world, alloc, p, walker, site, kind)?;
    Ok(turn)
}

//! What instructions do with the class that they name (JVMS 6.5).

ghost use Rattle.std.specs.Prelude.{◌≡◌, ◌+◌, ◌<◌, ◌^◌, IfOk, IfSome, OnOk};
ghost use Rattle.program_rules.specs.Kinds.{OfReference};
ghost use Rattle.class_link.specs.Symbols.{kind_of};
ghost use Rattle.class_link.specs.declared.linked.Entry.TheVariants.{Class};
ghost use Rattle.jvm_link.specs.References.{IsEntry, IsTableOf};
ghost use Rattle.jvm_world.specs.View.{IsWorldOf, IsKept};
ghost use Rattle.jvm_rows.specs.Effects.{Runs};
ghost use Rattle.jvm_rows.specs.Making.{array_row};
ghost use Rattle.jvm_members.specs.Whole.{RunsWhole};
ghost use Rattle.jvm_members.specs.ClassRows.{HasTested, class_row_of, resolved_row};

use crate::resolving::resolve_class;
use class_model::{ClassId, Kind, Memory, Name};
use class_table::Program;
use jvm_frames::Frames;
use jvm_link::References;
use jvm_rows::{Effect, load_class, throw};
use jvm_type_rows::{check_cast, test_instance};
use jvm_world::World;
use std::alloc::Global;

// The kind of a reference.
fn reference_kind(name: &Name) -> Result<Kind, Memory>
    ensures { IfOk result (λ k. kind_of k ≡ OfReference name.now) }
{
    let copy = name.copy()?;
    Ok(Kind::Ref(copy))
}

// An array of references is made.
fn make_references(
    frames: &mut Frames,
    world: &mut World,
    alloc: Global,
    p: &Program,
    name: &Name,
) -> Result<Effect, Memory>
    requires world { IsWorldOf p.now world.old }
    requires next { IfSome frames.old.frame (λ f. f.at + 1 < 2 ^ 64) }
    ensures row { IfOk result (λ e. Runs p.now (array_row (OfReference name.now)) e
        frames.old frames.new world.old world.new) }
    ensures kept { OnOk result (IsKept p.now world.old world.new) }
{
    let kind = reference_kind(name)?;
    let done = jvm_rows::make_array(frames, world, alloc, p, kind)?;
    Ok(done)
}

/// What an instruction does with the class that it names, once that is resolved.
#[derive(Clone, Copy)]
pub enum Purpose {
    /// Its object is pushed: `ldc`.
    Load,
    /// An array of such elements is made: `anewarray`.
    MakeArray,
    /// The object of this number is to be of it: `checkcast`.
    Cast(u32),
    /// Whether the object of this number, on the top of the stack, is of it: `instanceof`.
    Test(u32),
}

// What is done with a class that is resolved.
fn use_resolved(
    frames: &mut Frames,
    world: &mut World,
    alloc: Global,
    p: &Program,
    name: &Name,
    how: Purpose,
) -> Result<Effect, Memory>
    requires world { IsWorldOf p.now world.old }
    requires next { IfSome frames.old.frame (λ f. f.at + 1 < 2 ^ 64) }
    requires there { HasTested how frames.old }
    ensures row { IfOk result (λ e. Runs p.now (resolved_row p.now name.now how) e
        frames.old frames.new world.old world.new) }
    ensures kept { OnOk result (IsKept p.now world.old world.new) }
{
    match how {
        Purpose::Load => {
            let done = load_class(frames, world, alloc, p, name)?;
            Ok(done)
        }
        Purpose::MakeArray => {
            let done = make_references(frames, world, alloc, p, name)?;
            Ok(done)
        }
        Purpose::Cast(object) => {
            let done = check_cast(frames, world, alloc, p, name, object)?;
            Ok(done)
        }
        Purpose::Test(object) => {
            let done = test_instance(frames, world, alloc, p, name, object)?;
            Ok(done)
        }
    }
}

/// What is done with the class, the interface or the array type at an index of a class's constant
/// pool: `ldc`, `anewarray`, and `checkcast` and `instanceof` of an object.
#[tactic(auto, using(crate::proofs::Classed::class_used, crate::proofs::Classed::class_lost))]
pub fn use_class(
    frames: &mut Frames,
    world: &mut World,
    alloc: Global,
    p: &Program,
    references: &mut References,
    class: ClassId,
    index: u32,
    name: &Name,
    how: Purpose,
) -> Result<Effect, Memory>
    requires world { IsWorldOf p.now world.old }
    requires table { IsTableOf p.now references.old }
    requires entry { IsEntry p.now class.0 index (Class name.now) }
    requires next { IfSome frames.old.frame (λ f. f.at + 1 < 2 ^ 64) }
    requires there { HasTested how frames.old }
    ensures row { IfOk result (λ e. RunsWhole p.now (class_row_of p.now name.now how) e
        frames.old frames.new world.old world.new) }
    ensures kept { OnOk result (IsKept p.now world.old world.new) }
    ensures table { IsTableOf p.now references.new }
{
    let found = resolve_class(world, p, references, class, index, name)?;
    match found {
        Ok(_) => {
            let done = use_resolved(frames, world, alloc, p, name, how)?;
            Ok(done)
        }
        Err(fault) => {
            let thrown = throw(world, alloc, p, fault)?;
            Ok(thrown)
        }
    }
}

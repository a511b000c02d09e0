//! `new` (JVMS 6.5).

ghost use Rattle.std.specs.Prelude.{◌≡◌, ◌+◌, ◌<◌, ◌^◌, length, IfOk, IfSome, OnOk};
ghost use Rattle.program_rules.specs.Names.{is_array_name};
ghost use Rattle.program_rules.specs.Programs.{family};
ghost use Rattle.class_link.specs.declared.linked.Entry.TheVariants.{Class};
ghost use Rattle.class_table.specs.Faults.{HasRightKinds};
ghost use Rattle.class_table.specs.Table.{look, name_at};
ghost use Rattle.jvm_initialization.specs.Begins.{AreWhole};
ghost use Rattle.jvm_rows.specs.Effects.{Runs};
ghost use Rattle.jvm_link.specs.Named.{IsClassNamed};
ghost use Rattle.jvm_rows.specs.Making.{instance_row};
ghost use Rattle.jvm_link.specs.References.{IsEntry, IsTableOf};
ghost use Rattle.jvm_world.specs.View.{IsWorldOf, IsKept};
ghost use Rattle.jvm_members.specs.Layouts.{AreLayouts};
ghost use Rattle.jvm_members.specs.FieldRows.{new_found, new_row};
ghost use Rattle.jvm_members.specs.Turned.{StaysBeginsOrGoes, TurnsWhole};

use crate::layouts::Layouts;
use crate::resolve_class;
use crate::turning::turn_of;
use class_family::Walker;
use class_link::names::is_array_name;
use class_model::{ClassId, Memory, Name};
use class_table::Program;
use jvm_frames::Frames;
use jvm_initialization::{Readied, make_ready};
use jvm_layout::Layout;
use jvm_link::References;
use jvm_rows::{Effect, make_instance, throw};
use jvm_unwind::Turn;
use jvm_world::World;
use std::alloc::Global;

// Whether a name is that of an array.
fn names_array(name: &Name) -> bool
    ensures { result ≡ is_array_name name.now }
{
    is_array_name(name.as_slice())
}

// An object of a class that is ready is made.
#[tactic(auto, using(crate::proofs::Made::made_of))]
fn make_one(
    frames: &mut Frames,
    world: &mut World,
    alloc: Global,
    p: &Program,
    layouts: &mut Layouts,
    class: ClassId,
) -> Result<Effect, Memory>
    requires world { IsWorldOf p.now world.old }
    requires layouts { AreLayouts p.now layouts.old }
    requires class { class.0 < length p.now }
    requires next { IfSome frames.old.frame (λ f. f.at + 1 < 2 ^ 64) }
    ensures row { IfOk result (λ e. Runs p.now (instance_row (name_at p.now class.0)
        (family (look p.now) (name_at p.now class.0))) e
        frames.old frames.new world.old world.new) }
    ensures kept { OnOk result (IsKept p.now world.old world.new) }
    ensures layouts { AreLayouts p.now layouts.new }
{
    let layout = layouts.layout(alloc, p, class)?;
    let Layout {
        is_abstract,
        values,
        more,
    } = layout;
    let done = make_instance(frames, world, alloc, p, class, is_abstract, values, more)?;
    Ok(done)
}

// `new` of a class that was found.
#[tactic(auto, using(crate::proofs::Made::no_array, crate::proofs::Made::made_turned, crate::proofs::Made::made_used, crate::proofs::Made::made_frames, crate::proofs::Readied::stays, crate::proofs::Readied::begun))]
fn make_found(
    frames: &mut Frames,
    world: &mut World,
    alloc: Global,
    p: &Program,
    walker: &mut Walker,
    layouts: &mut Layouts,
    class: ClassId,
    name: &Name,
) -> Result<Turn, Memory>
    requires world { IsWorldOf p.now world.old }
    requires kinds { HasRightKinds (look p.now) }
    requires whole { AreWhole frames.old }
    requires layouts { AreLayouts p.now layouts.old }
    requires named { IsClassNamed p.now name.now class }
    requires next { IfSome frames.old.frame (λ f. f.at + 1 < 2 ^ 64) }
    ensures row { IfOk result (λ t. TurnsWhole p.now (new_found p.now name.now) t
        frames.old frames.new world.old world.new) }
    ensures frames { OnOk result (StaysBeginsOrGoes p.now frames.old frames.new) }
    ensures kept { OnOk result (IsKept p.now world.old world.new) }
    ensures layouts { AreLayouts p.now layouts.new }
{
    if names_array(name) {
        return Ok(Turn::NoRow);
    }
    let readied = make_ready(frames, world, alloc, p, walker, class)?;
    match readied {
        Readied::Ready => {
            let done = make_one(frames, world, alloc, p, layouts, class)?;
            let turn = turn_of(done);
            Ok(turn)
        }
        Readied::Turned(turn) => Ok(turn),
    }
}

/// `new` of the class at an index of a class's constant pool. Where its class has to begin first,
/// that is the turn, and the instruction stays.
#[tactic(auto, using(crate::proofs::Made::class_by, crate::proofs::Made::was_made, crate::proofs::Made::made_lost, crate::proofs::Readied::stays))]
pub fn make_object(
    frames: &mut Frames,
    world: &mut World,
    alloc: Global,
    p: &Program,
    references: &mut References,
    walker: &mut Walker,
    layouts: &mut Layouts,
    class: ClassId,
    index: u32,
    name: &Name,
) -> Result<Turn, Memory>
    requires world { IsWorldOf p.now world.old }
    requires kinds { HasRightKinds (look p.now) }
    requires whole { AreWhole frames.old }
    requires table { IsTableOf p.now references.old }
    requires layouts { AreLayouts p.now layouts.old }
    requires entry { IsEntry p.now class.0 index (Class name.now) }
    requires next { IfSome frames.old.frame (λ f. f.at + 1 < 2 ^ 64) }
    ensures row { IfOk result (λ t. TurnsWhole p.now (new_row p.now name.now) t
        frames.old frames.new world.old world.new) }
    ensures frames { OnOk result (StaysBeginsOrGoes p.now frames.old frames.new) }
    ensures kept { OnOk result (IsKept p.now world.old world.new) }
    ensures table { IsTableOf p.now references.new }
    ensures layouts { AreLayouts p.now layouts.new }
{
    let found = resolve_class(world, p, references, class, index, name)?;
    match found {
        Ok(id) => {
            let done = make_found(frames, world, alloc, p, walker, layouts, id, name)?;
            Ok(done)
        }
        Err(fault) => {
            let thrown = throw(world, alloc, p, fault)?;
            let turn = turn_of(thrown);
            Ok(turn)
        }
    }
}

//! What a reference to a method resolves to, where an instruction asks it, and how a row throws.

ghost use Rattle.std.specs.Prelude.{◌≡◌, IfOk, OnOk};
ghost use Rattle.program_rules.specs.Instructions.{MethodRef as Reference};
ghost use Rattle.program_rules.specs.Names.{class_behind};
ghost use Rattle.machine_rules.specs.Lookups.{consult};
ghost use Rattle.class_link.specs.declared.linked.Entry.TheVariants.{Method};
ghost use Rattle.class_table.specs.Table.{look};
ghost use Rattle.jvm_frames.specs.Frames.{NumberedFrames};
ghost use Rattle.jvm_rows.specs.Rows.{throwing};
ghost use Rattle.jvm_link.specs.References.{IsEntry, IsTableOf, ResolvesMethodRef};
ghost use Rattle.jvm_world.specs.View.{IsWorldOf, IsKept, Moves};
ghost use Rattle.jvm_invokes.specs.Invoked.{Invokes};

use crate::invoked::Invoked;
use class_link::MethodRef;
use class_model::{ClassId, Memory};
use class_table::Program;
use jvm_link::{Callee, References};
use jvm_unwind::Turn;
use jvm_world::World;
use program_rules::Fault;
use std::alloc::Global;

/// What the reference at an index of a class's constant pool resolves to. The class that it names
/// is consulted.
#[tactic(auto, using(crate::proofs::Resolved::consulted_moves, crate::proofs::Resolved::consulted_kept))]
#[inline(always)]
pub fn resolve(
    world: &mut World,
    p: &Program,
    references: &mut References,
    class: ClassId,
    index: u32,
    reference: &MethodRef,
) -> Result<Result<Callee, Fault>, Memory>
    requires world { IsWorldOf p.now world.old }
    requires table { IsTableOf p.now references.old }
    requires entry { IsEntry p.now class.0 index (Method reference.now) }
    ensures answer { IfOk result (λ a. ResolvesMethodRef p.now reference.now a) }
    ensures moves { OnOk result (Moves p.now world.old world.new
        (consult (look p.now) (class_behind reference.now.class))) }
    ensures kept { OnOk result (IsKept p.now world.old world.new) }
    ensures table { IsTableOf p.now references.new }
{
    let answer = references.method(p, &mut world.consulted, class, index, reference)?;
    Ok(answer)
}

/// The machine throws an exception of its own, or the run is over.
#[tactic(auto, using(crate::proofs::Resolved::thrown_invokes))]
#[inline(never)]
pub fn throw(world: &mut World, alloc: Global, p: &Program, fault: Fault) -> Result<Invoked, Memory>
    requires { IsWorldOf p.now world.old }
    ensures throws { IfOk result (λ t. (s : NumberedFrames) (r : Reference) →
        Invokes p.now r (throwing fault) t s s world.old world.new) }
    ensures kept { OnOk result (IsKept p.now world.old world.new) }
{
    let thrown = world.throw(alloc, p, fault)?;
    Ok(Invoked::Turned(Turn::of(thrown)))
}

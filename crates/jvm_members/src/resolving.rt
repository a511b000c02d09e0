//! What an index of a class's constant pool resolves to, where an instruction asks it.

ghost use Rattle.std.specs.Prelude.{IfOk, OnOk};
ghost use Rattle.program_rules.specs.Names.{class_behind};
ghost use Rattle.machine_rules.specs.Lookups.{consult};
ghost use Rattle.class_link.specs.declared.linked.Entry.TheVariants.{Class, Field};
ghost use Rattle.class_table.specs.Table.{look};
ghost use Rattle.jvm_link.specs.Named.{ResolvesClass};
ghost use Rattle.jvm_link.specs.References.{IsEntry, IsTableOf, ResolvesFieldRef};
ghost use Rattle.jvm_world.specs.View.{IsWorldOf, IsKept, Moves};

use class_link::FieldRef;
use class_model::{ClassId, Memory, Name};
use class_table::Program;
use jvm_link::{References, Site};
use jvm_world::World;
use program_rules::Fault;

/// What the class at an index of a class's constant pool resolves to (JVMS 5.4.3.1). The class that
/// is named is consulted.
#[tactic(auto, using(jvm_invokes::proofs::Resolved::consulted_moves, jvm_invokes::proofs::Resolved::consulted_kept))]
pub fn resolve_class(
    world: &mut World,
    p: &Program,
    references: &mut References,
    class: ClassId,
    index: u32,
    name: &Name,
) -> Result<Result<ClassId, Fault>, Memory>
    requires world { IsWorldOf p.now world.old }
    requires table { IsTableOf p.now references.old }
    requires entry { IsEntry p.now class.0 index (Class name.now) }
    ensures answer { IfOk result (λ a. ResolvesClass p.now name.now a) }
    ensures moves { OnOk result (Moves p.now world.old world.new
        (consult (look p.now) (class_behind name.now))) }
    ensures kept { OnOk result (IsKept p.now world.old world.new) }
    ensures table { IsTableOf p.now references.new }
{
    let answer = references.class(p, &mut world.consulted, class, index, name)?;
    Ok(answer)
}

/// What the reference to a field at an index of a class's constant pool resolves to (JVMS 5.4.3.2).
/// The class that it names is consulted.
#[tactic(auto, using(jvm_invokes::proofs::Resolved::consulted_moves, jvm_invokes::proofs::Resolved::consulted_kept))]
pub fn resolve_field(
    world: &mut World,
    p: &Program,
    references: &mut References,
    class: ClassId,
    index: u32,
    reference: &FieldRef,
) -> Result<Result<Site, Fault>, Memory>
    requires world { IsWorldOf p.now world.old }
    requires table { IsTableOf p.now references.old }
    requires entry { IsEntry p.now class.0 index (Field reference.now) }
    ensures answer { IfOk result (λ a. ResolvesFieldRef p.now reference.now a) }
    ensures moves { OnOk result (Moves p.now world.old world.new
        (consult (look p.now) (class_behind reference.now.class))) }
    ensures kept { OnOk result (IsKept p.now world.old world.new) }
    ensures table { IsTableOf p.now references.new }
{
    let answer = references.field(p, &mut world.consulted, class, index, reference)?;
    Ok(answer)
}

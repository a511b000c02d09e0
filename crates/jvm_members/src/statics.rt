//! `getstatic` and `putstatic` (JVMS 6.5).

ghost use Rattle.std.specs.Prelude.{◌+◌, ◌<◌, ◌^◌, length, IfOk, IfSome, OnOk};
ghost use Rattle.program_rules.specs.Programs.{Family};
ghost use Rattle.program_rules.specs.Resolution.{FieldAt};
ghost use Rattle.class_link.specs.Symbols.{kind_of};
ghost use Rattle.class_link.specs.View.{field_ref_of};
ghost use Rattle.class_link.specs.declared.linked.Entry.TheVariants.{Field};
ghost use Rattle.class_table.specs.Faults.{HasRightKinds};
ghost use Rattle.class_table.specs.Table.{look};
ghost use Rattle.jvm_initialization.specs.Begins.{AreWhole};
ghost use Rattle.jvm_rows.specs.Effects.{Runs};
ghost use Rattle.jvm_rows.specs.Statics.{IsStaticAt};
ghost use Rattle.jvm_link.specs.References.{IsEntry, IsFieldNamed, IsTableOf};
ghost use Rattle.jvm_world.specs.View.{IsWorldOf, IsKept};
ghost use Rattle.jvm_members.specs.FieldRows.{accessing, static_found, static_row};
ghost use Rattle.jvm_members.specs.Sites.{ResolvesTo};
ghost use Rattle.jvm_members.specs.Turned.{StaysBeginsOrGoes, TurnsWhole};

use crate::access::Access;
use crate::resolve_field;
use crate::sites::{field_at, is_static};
use crate::turning::turn_of;
use class_family::Walker;
use class_link::FieldRef;
use class_model::{ClassId, Kind, Memory};
use class_table::Program;
use jvm_frames::Frames;
use jvm_initialization::{Readied, make_ready, number_of};
use jvm_link::{References, Site};
use jvm_rows::{Effect, get_static, put_static, throw};
use jvm_unwind::Turn;
use jvm_world::World;
use program_rules::Fault;
use std::alloc::Global;

// The field of a class at a place is read or written. The class is ready.
fn access_ready(
    frames: &mut Frames,
    world: &mut World,
    p: &Program,
    class: ClassId,
    place: u32,
    kind: &Kind,
    access: Access,
) -> Result<Effect, Memory>
    requires world { IsWorldOf p.now world.old }
    requires class { class.0 < length p.now }
    requires next { IfSome frames.old.frame (λ f. f.at + 1 < 2 ^ 64) }
    ensures row { IfOk result (λ e. (x : FieldAt) (c : Family) →
        IsStaticAt p.now class.0 place (kind_of kind.now) x →
        Runs p.now (accessing access x c) e frames.old frames.new world.old world.new) }
    ensures kept { OnOk result (IsKept p.now world.old world.new) }
{
    match access {
        Access::Get => {
            let done = get_static(frames, world, p, class, place, kind);
            Ok(done)
        }
        Access::Put => {
            let done = put_static(frames, world, p, class, place, kind)?;
            Ok(done)
        }
    }
}

// A field that was found is read or written, if it is static.
#[tactic(auto, using(crate::proofs::Fielded::place_within, crate::proofs::Readied::used_frames, crate::proofs::Readied::stays, crate::proofs::Readied::begun))]
fn access_found(
    frames: &mut Frames,
    world: &mut World,
    alloc: Global,
    p: &Program,
    walker: &mut Walker,
    reference: &FieldRef,
    site: Site,
    access: Access,
) -> Result<Turn, Memory>
    requires world { IsWorldOf p.now world.old }
    requires kinds { HasRightKinds (look p.now) }
    requires whole { AreWhole frames.old }
    requires site { IsFieldNamed p.now reference.now site }
    requires next { IfSome frames.old.frame (λ f. f.at + 1 < 2 ^ 64) }
    ensures row { IfOk result (λ t. (x : FieldAt) → ResolvesTo p.now reference.now x →
        TurnsWhole p.now (static_found p.now access x) t
        frames.old frames.new world.old world.new) }
    ensures frames { OnOk result (StaysBeginsOrGoes p.now frames.old frames.new) }
    ensures kept { OnOk result (IsKept p.now world.old world.new) }
{
    if !is_static(p, site) {
        let thrown = throw(world, alloc, p, Fault::IncompatibleClassChangeError)?;
        let turn = turn_of(thrown);
        return Ok(turn);
    }
    let place = number_of(site.place)?;
    let readied = make_ready(frames, world, alloc, p, walker, site.class)?;
    match readied {
        Readied::Ready => {
            let field = field_at(p, site);
            let done = access_ready(frames, world, p, site.class, place, &field.kind, access)?;
            let turn = turn_of(done);
            Ok(turn)
        }
        Readied::Turned(turn) => Ok(turn),
    }
}

/// `getstatic` or `putstatic` of the reference at an index of a class's constant pool. Where its
/// class has to begin first, that is the turn, and the instruction stays.
#[tactic(auto, using(crate::proofs::Fielded::named_by, crate::proofs::Readied::static_got, crate::proofs::Readied::static_lost, crate::proofs::Readied::stays))]
pub fn access_static(
    frames: &mut Frames,
    world: &mut World,
    alloc: Global,
    p: &Program,
    references: &mut References,
    walker: &mut Walker,
    class: ClassId,
    index: u32,
    reference: &FieldRef,
    access: Access,
) -> Result<Turn, Memory>
    requires world { IsWorldOf p.now world.old }
    requires kinds { HasRightKinds (look p.now) }
    requires whole { AreWhole frames.old }
    requires table { IsTableOf p.now references.old }
    requires entry { IsEntry p.now class.0 index (Field reference.now) }
    requires next { IfSome frames.old.frame (λ f. f.at + 1 < 2 ^ 64) }
    ensures row { IfOk result (λ t.
        TurnsWhole p.now (static_row p.now access (field_ref_of reference.now)) t
        frames.old frames.new world.old world.new) }
    ensures frames { OnOk result (StaysBeginsOrGoes p.now frames.old frames.new) }
    ensures kept { OnOk result (IsKept p.now world.old world.new) }
    ensures table { IsTableOf p.now references.new }
{
    let found = resolve_field(world, p, references, class, index, reference)?;
    match found {
        Ok(site) => {
            let done = access_found(frames, world, alloc, p, walker, reference, site, access)?;
            Ok(done)
        }
        Err(fault) => {
            let thrown = throw(world, alloc, p, fault)?;
            let turn = turn_of(thrown);
            Ok(turn)
        }
    }
}

//! What a native method wants done is done in the world.

ghost use Rattle.std.specs.Prelude.{◌≡◌, ◌^◌, true, IfOk, OnOk};
ghost use Rattle.class_table.specs.Table.{names};
ghost use Rattle.jvm_natives.specs.Natives.{AreNatives};
ghost use Rattle.jvm_world.specs.View.{IsWorldOf, IsKept};
ghost use Rattle.lib_core.specs.Known.{IsKnown};
ghost use Rattle.lib_core.specs.Slots.{DoesFewer, SetsFewer};
ghost use Rattle.lib_core.specs.View.{deed_of};
ghost use Rattle.jvm_natives.specs.Ends.{PerformsTo};

use crate::natives::Natives;
use class_model::Memory;
use class_table::Program;
use jvm_values::HeapFault;
use jvm_world::World;
use lib_core::{Change, Deed, Known, NativeEnd, perform};
use std::alloc::Global;

// Whether an object would get no more slots than an int counts.
fn is_few(deed: &Deed) -> bool
    ensures { result ≡ true → DoesFewer (2 ^ 31) deed.now }
{
    match deed {
        Deed::Changes(_, change, _, _) => sets_few(change),
        Deed::Gives(_) => true,
        Deed::Makes(_, _, _, _) => true,
        Deed::Boxes(_, _) => true,
        Deed::MakesChars(_) => true,
        Deed::GivesClass(_) => true,
        Deed::GivesWithin(_, _, _, _) => true,
        Deed::Throws(_) => true,
        Deed::NoDeed => true,
    }
}

fn sets_few(change: &Change) -> bool
    ensures { result ≡ true → SetsFewer (2 ^ 31) change.now }
{
    match change {
        Change::SetValues(values) => values.len() < 2147483648,
        Change::SetText(_) => true,
        Change::AddText(_) => true,
        Change::SetItems(_) => true,
        Change::AddItems(_) => true,
        Change::InsertItem(_, _) => true,
        Change::SetItem(_, _) => true,
        Change::CutItem(_) => true,
        Change::CutEntry(_) => true,
    }
}

// Where no object would get more slots than an int counts.
#[tactic(auto, using(crate::proofs::Stores::performed, crate::proofs::Stores::refused, crate::proofs::Stores::kept_by, crate::proofs::Stores::kept_same))]
fn perform_few(
    world: &mut World,
    alloc: Global,
    p: &Program,
    known: &Known,
    deed: Deed,
) -> Result<Option<NativeEnd>, Memory>
    requires world { IsWorldOf p.now world.old }
    requires known { IsKnown (names p.now) known.now }
    requires few { DoesFewer (2 ^ 31) deed }
    ensures performs { IfOk result (λ e.
        PerformsTo p.now world.old world.new (deed_of deed) e) }
    ensures kept { OnOk result (IsKept p.now world.old world.new) }
{
    let done = perform(alloc, known, &mut world.heap, &mut world.kept, deed);
    match done {
        Ok(end) => Ok(Some(end)),
        Err(fault) => match fault {
            HeapFault::Full => Ok(None),
            HeapFault::Memory => Err(Memory),
        },
    }
}

/// Does what a native method wants done; none where the heap would be passed. No native method
/// gives an object more slots than it had, so that a change with more than an int counts wants more
/// memory than there is.

pub fn perform_in(
    world: &mut World,
    alloc: Global,
    p: &Program,
    natives: &Natives,
    deed: Deed,
) -> Result<Option<NativeEnd>, Memory>
    requires world { IsWorldOf p.now world.old }
    requires natives { AreNatives p.now natives.now }
    ensures performs { IfOk result (λ e.
        PerformsTo p.now world.old world.new (deed_of deed) e) }
    ensures kept { OnOk result (IsKept p.now world.old world.new) }
{
    if !is_few(&deed) {
        return Err(Memory);
    }
    let end = perform_few(world, alloc, p, &natives.known, deed)?;
    Ok(end)
}

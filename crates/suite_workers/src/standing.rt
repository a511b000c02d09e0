//! A program in which the class of a mutant may stand edited.

ghost use Rattle.std.specs.Prelude.{◌≡◌, ◌<◌, Some, None, All, IfOk, OnOk, OnErr, length};
ghost use Rattle.suite_jobs.specs.Below.{mutant_runs_files_of as files_of, IsMutantOf};
ghost use Rattle.suite_workers.specs.Standing.{HasEdit, HasEditAt, IsBare, IsStand, IsSwapOf, StandsAt, StandsFor, base_of, is_standing, swap_in};

use crate::look_ups::{InHistory, bytes_of};
use class_model::{ClassId, Memory, Name};
use class_table::{ClassInfo, Program};
use history_index::Swap;
use mutator_ops::Mutant;
use run_records::Tables;
use std::alloc::Global;
use std::sync::Arc;
use suite_jobs::{ClassBytes, edited_class};

/// Which mutant's class stands edited, by its number; the class by number, and what stood there
/// before; and what of the class files is another one, to a history.
#[derive(Drop)]
pub struct Standing {
    pub mutant: u64,
    pub id: ClassId,
    pub original: Arc<ClassInfo, Global>,
    pub swap: Option<Swap>,
}

/// A program of a worker's own, with all that is kept from run to run.
#[derive(Drop)]
pub struct Stand {
    pub program: Program,
    pub tables: Tables,
    pub kept: Option<ClassBytes>,
    pub standing: Option<Standing>,
}

// What of the class files is another one where this class stands in the place of the one of its
// name; nothing without a history.
fn swap_of(
    alloc: Global,
    history: &Option<InHistory>,
    name: &Name,
    edited: &ClassInfo,
) -> Result<Option<Swap>, Memory>
    ensures { IfOk result (IsSwapOf history.now name.now edited.now) }
{
    let Some(there) = history else {
        return Ok(None);
    };
    let Some(bytes) = bytes_of(edited) else {
        return Ok(None);
    };
    there.index.swap(alloc, name, bytes)
}

fn is_standing(stand: &Stand, mutant: u64) -> bool
    ensures { result ≡ is_standing stand.now mutant }
{
    match &stand.standing {
        None => false,
        Some(standing) => standing.mutant == mutant,
    }
}

/// What another one is in the program, to a history.
pub fn swap_in(stand: &Stand) -> Option<Swap>
    ensures { result ≡ swap_in stand.now.standing }
{
    match &stand.standing {
        None => None,
        Some(standing) => standing.swap,
    }
}

// Puts the class back that stood there before.
fn put_back(stand: &mut Stand, history: &Option<InHistory>, mutants: &[Mutant])
    requires { IsStand (base_of stand.old) history.now mutants.now stand.old }
    ensures { IsBare (base_of stand.old) stand.new }
{
    let Some(standing) = stand.standing.take() else {
        return;
    };
    let Standing {
        mutant: _,
        id,
        original,
        swap: _,
    } = standing;
    let _edited = stand.program.swap(id, original);
}

// Puts the class in that a mutant's edit makes.
#[tactic(auto, using(crate::proofs::Standings::has_none))]
fn put_in(
    alloc: Global,
    stand: &mut Stand,
    history: &Option<InHistory>,
    mutant: &Mutant,
    number: u64,
) -> Result<(), Memory>
    requires bare { IsBare stand.old.program stand.old }
    requires fits { IsMutantOf (files_of stand.old.program) mutant.now }
    requires edit { HasEdit stand.old.program mutant.now }
    ensures placed { OnOk result
        (StandsFor stand.old.program history.now number mutant.now stand.new) }
    ensures err { OnErr result (IsBare stand.old.program stand.new) }
{
    let mut kept = stand.kept.take();
    let made = edited_class(alloc, &stand.program, mutant, &mut kept)?;
    stand.kept = kept;
    let Some((id, edited)) = made else {
        unreachable!()
    };
    let swap = swap_of(alloc, history, &mutant.class, &edited)?;
    let original = stand.program.swap(id, edited);
    stand.tables.renew(alloc, &stand.program);
    stand.standing = Some(Standing {
        mutant: number,
        id,
        original,
        swap,
    });
    Ok(())
}

/// Sees to it that the class of the mutant of this number stands edited in the program. Where it
/// does already nothing is done.
pub fn place(
    alloc: Global,
    stand: &mut Stand,
    history: &Option<InHistory>,
    mutants: &[Mutant],
    number: u64,
) -> Result<(), Memory>
    requires stand { IsStand (base_of stand.old) history.now mutants.now stand.old }
    requires number { number < length mutants.now }
    requires fits { All (IsMutantOf (files_of (base_of stand.old))) mutants.now }
    requires edit { HasEditAt (base_of stand.old) mutants.now number }
    ensures stand { IsStand (base_of stand.old) history.now mutants.now stand.new }
    ensures placed { OnOk result
        (StandsAt (base_of stand.old) history.now mutants.now number stand.new) }
{
    if is_standing(stand, number) {
        return Ok(());
    }
    put_back(stand, history, mutants);
    let at = number as usize;
    put_in(alloc, stand, history, &mutants[at], number)
}

//! The search for a handler, in a world.

ghost use Rattle.std.specs.Prelude.{◌≡◌, [], None, All, IfOk, OnOk};
ghost use Rattle.jvm_unwind.specs.Rows.{IsCatch, IsCatchRow};
ghost use Rattle.jvm_world.specs.View.{IsWorldOf, IsKept};
ghost use Rattle.jvm_unwind.specs.Thrown.{IsClass};
ghost use Rattle.jvm_unwind.specs.Unwinding.{Searches, Tests};

use crate::thrown::Thrown;
use crate::{Catch, CatchRow, find_handler};
use class_model::Memory;
use class_table::Program;
use jvm_world::World;

/// The instruction at which these rows go on with an object of this class, thrown at an
/// instruction.
#[tactic(auto, using(crate::proofs::Worlds::kept_tested))]
pub fn handler(
    world: &mut World,
    p: &Program,
    rows: &[CatchRow],
    at: usize,
    thrown: &Thrown,
) -> Result<Option<u32>, Memory>
    requires world { IsWorldOf p.now world.old }
    requires rows { All (IsCatchRow p.now) rows.now }
    requires thrown { IsClass p.now thrown.now }
    ensures found { IfOk result (λ to.
        Searches p.now thrown.now rows.now at world.old to world.new) }
    ensures none { IfOk result (λ to. rows.now ≡ [] → to ≡ None) }
    ensures kept { OnOk result (IsKept p.now world.old world.new) }
{
    let class = thrown.id(p);
    let to = find_handler(p, &mut world.consulted, rows, at, class)?;
    Ok(to)
}

/// Whether an object of this class is of the one that is named, or of one below it.
#[tactic(auto, using(crate::proofs::Worlds::kept_tested))]
pub fn is_caught(
    world: &mut World,
    p: &Program,
    catch: &Catch,
    thrown: &Thrown,
) -> Result<bool, Memory>
    requires world { IsWorldOf p.now world.old }
    requires catch { IsCatch p.now catch.now }
    requires thrown { IsClass p.now thrown.now }
    ensures tests { IfOk result (λ b. Tests p.now thrown.now catch.now world.old b world.new) }
    ensures kept { OnOk result (IsKept p.now world.old world.new) }
{
    let class = thrown.id(p);
    let caught = catch.catches(p, &mut world.consulted, class)?;
    Ok(caught)
}

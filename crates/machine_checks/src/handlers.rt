//! The search for a handler.

ghost use Rattle.std.specs.Prelude.{All, IfOk, OnOk};
ghost use Rattle.class_table.specs.Seen.{IsConsultedOf};
ghost use Rattle.jvm_run.specs.Below.{IsCatchRow};
ghost use Rattle.jvm_run.specs.Below.{IsThrown, Finds};

use class_model::{ClassId, Memory};
use class_table::{Consulted, Program};
use jvm_run::CatchRow;

/// `find_handler` of `jvm_unwind`.
pub fn find_handler(
    program: &Program,
    seen: &mut Consulted,
    rows: &[CatchRow],
    at: usize,
    thrown: Option<ClassId>,
) -> Result<Option<u32>, Memory>
    requires rows { All (IsCatchRow program.now) rows.now }
    requires thrown { IsThrown program.now thrown }
    requires seen { IsConsultedOf program.now seen.old }
    ensures found { IfOk result (λ to. Finds program.now thrown rows.now at seen.old to seen.new) }
    ensures kept { OnOk result (IsConsultedOf program.now seen.new) }
{
    let place = at;
    let to = jvm_run::find_handler(program, seen, rows, place, thrown)?;
    Ok(to)
}

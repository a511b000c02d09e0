//! The first fault of given classes as a program.

ghost use Rattle.std.specs.Prelude.{◌≡◌, ◌<◌, ◌^◌, length, IfOk};
ghost use Rattle.class_table.specs.Adding.{shared};
ghost use Rattle.class_table.specs.Flaws.{AreFound, IsFirstOrNone};
ghost use Rattle.class_table.specs.Numbers.{IsNumbering};

use crate::fault::TableFault;
use crate::flaws::Flaw;
use crate::least::least_with;
use class_link::ClassInfo;
use class_model::{Memory, Name};
use class_order::Standing;
use std::alloc::Global;
use std::collections::BTreeMap;
use std::sync::Arc;

/// The first fault of these classes as a program, if they have one, where this was found of their
/// supers.
pub fn first_fault(
    alloc: Global,
    infos: &[Arc<ClassInfo, Global>],
    numbers: &BTreeMap<Name, u32>,
    found: &[Standing],
) -> Result<Option<TableFault>, Memory>
    requires numbers { IsNumbering numbers.now (shared infos.now) }
    requires few { length infos.now < 2 ^ 32 }
    requires found { AreFound (shared infos.now) found.now }
    ensures { IfOk result (IsFirstOrNone (shared infos.now)) }
{
    if let Some(name) = least_with(alloc, infos, numbers, found, Flaw::RepeatsName)? {
        return Ok(Some(TableFault::Duplicate { name }));
    }
    if let Some(name) = least_with(alloc, infos, numbers, found, Flaw::MissesSuper)? {
        return Ok(Some(TableFault::SuperMissing { name }));
    }
    if let Some(name) = least_with(alloc, infos, numbers, found, Flaw::StandsAboveItself)? {
        return Ok(Some(TableFault::SuperCycle { name }));
    }
    if let Some(name) = least_with(alloc, infos, numbers, found, Flaw::NamesWrongKind)? {
        return Ok(Some(TableFault::SuperKind { name }));
    }
    Ok(None)
}

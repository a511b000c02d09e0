//! The first fault of a program.

ghost use Rattle.std.specs.Prelude.{◌≡◌, ◌<◌, length, Err, IfOk, OnOk};
ghost use Rattle.type_rules.specs.Rules.{Accepted};
ghost use Rattle.class_table.specs.Table.{look};
ghost use Rattle.type_verifier.specs.Programs.{AreNumbered, IsLibraryAccepted, before_found, GoesOn, FoundAmong, IsFirstRefused};
ghost use Rattle.type_verifier.specs.declared.end.VerifyFault.{VerifyFault};
ghost use Rattle.type_verifier.specs.declared.end.VerifyEnd.TheVariants.{Refused};

use crate::classes::fault_of_class;
use crate::end::{VerifyEnd, VerifyFault};
use class_model::{Bytes, ClassId, Memory, write_text};
use class_table::Program;
use std::alloc::Global;

/// A fault, with the bytes of its class's name.
#[derive(Drop)]
pub struct Found {
    pub name: Bytes,
    pub fault: VerifyFault,
}

// Whether a name comes before that of the class of the fault, if there is one.
fn is_before(name: &Bytes, found: &Option<Found>) -> bool
    ensures { result ≡ before_found name.now found.now }
{
    match found {
        Some(found) => name.cmp(&found.name).is_lt(),
        None => true,
    }
}

// Goes on to the next class, which is verified if its name comes before that of the class of the
// fault that was found.
fn consider(
    alloc: Global,
    program: &Program,
    id: ClassId,
    found: &mut Option<Found>,
) -> Result<(), Memory>
    requires within { id.0 < length program.now }
    requires numbered { AreNumbered program.now }
    requires library { IsLibraryAccepted (look program.now) }
    ensures { OnOk result (GoesOn program.now id.0 found.old found.new) }
{
    let name = write_text(alloc, program.info(id).name())?;
    if !is_before(&name, found) {
        return Ok(());
    }
    let fault = fault_of_class(alloc, program, id)?;
    match fault {
        Some(fault) => {
            *found = Some(Found { name, fault });
            Ok(())
        }
        None => Ok(()),
    }
}

// The fault of the least class that has one.
fn first_fault(alloc: Global, program: &Program) -> Result<Option<Found>, Memory>
    requires numbered { AreNumbered program.now }
    requires library { IsLibraryAccepted (look program.now) }
    ensures { IfOk result (FoundAmong program.now (length program.now)) }
{
    let mut found = None;
    let count = program.len() as u32;
    for id in 0..count {
        consider(alloc, program, ClassId(id), &mut found)?;
    }
    Ok(found)
}

/// Verifies the code of a program. It is accepted, or the fault is the first one: of the class with
/// the least name, by its bytes in modified UTF-8, and there the first one of that class. That the
/// library is accepted is asked for.
pub fn verify(alloc: Global, program: &Program) -> Result<(), VerifyEnd>
    requires numbered { AreNumbered program.now }
    requires library { IsLibraryAccepted (look program.now) }
    ensures yes { OnOk result (Accepted (look program.now)) }
    ensures no { (f : VerifyFault) → result ≡ Err (Refused f) → IsFirstRefused program.now f }
{
    let found = first_fault(alloc, program)?;
    match found {
        Some(found) => Err(VerifyEnd::Refused(found.fault)),
        None => Ok(()),
    }
}

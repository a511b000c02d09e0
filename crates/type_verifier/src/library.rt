//! The code of the library.

ghost use Rattle.std.specs.Prelude.{◌≡◌, ◌<◌, ◌^◌, All, length, Err, IfOk, OnOk};
ghost use Rattle.class_table.specs.Table.{look};
ghost use Rattle.type_verifier.specs.Pool.{IsOwn};
ghost use Rattle.type_verifier.specs.ProgramTables.{AreTables, HasShortCode};
ghost use Rattle.type_verifier.specs.Libraries.{FirstBodyIs, IsFirstInLibrary, IsInfoOf, LibraryFaultIs};
ghost use Rattle.type_verifier.specs.Programs.{AreNumbered, IsLibraryAccepted};
ghost use Rattle.type_verifier.specs.declared.end.VerifyFault.{VerifyFault};
ghost use Rattle.type_verifier.specs.declared.end.VerifyEnd.TheVariants.{Refused};

use crate::Own;
use crate::classes::is_program;
use crate::end::{VerifyEnd, VerifyFault};
use crate::methods::body_fault;
use crate::tables::{Tables, tables_of};
use class_link::{ClassInfo, LinkedMethod};
use class_model::{ClassId, Memory};
use class_table::Program;
use std::alloc::Global;

// The first fault of the code of these methods, which are those of the class.
fn refused_body(
    own: &Own,
    tables: &mut Tables,
    methods: &[LinkedMethod],
) -> Result<Option<VerifyFault>, Memory>
    requires tables { AreTables own.now tables.old }
    requires methods { methods.now ≡ own.now.linked.now.methods }
    requires few { length methods.now < 2 ^ 32 }
    requires short { All HasShortCode methods.now }
    ensures { IfOk result (FirstBodyIs own.now) }
{
    for (k, method) in methods.iter().enumerate() {
        let fault = body_fault(own, tables, method)?;
        if let Some(fault) = fault {
            return Ok(Some(VerifyFault {
                class: own.id,
                method: k as u32,
                at: fault.at,
                rule: fault.rule,
            }));
        }
    }
    Ok(None)
}

// The first fault of the code of a class.
fn body_fault_of_own(alloc: Global, own: &Own) -> Result<Option<VerifyFault>, Memory>
    requires own { IsOwn own.now }
    requires few { length own.now.linked.now.methods < 2 ^ 32 }
    requires short { All HasShortCode own.now.linked.now.methods }
    ensures { IfOk result (FirstBodyIs own.now) }
{
    let mut tables = tables_of(alloc, own)?;
    let fault = refused_body(own, &mut tables, own.linked.methods.as_slice())?;
    Ok(fault)
}

// The first fault of the code of a class, if it is one of the library.
fn library_fault(
    alloc: Global,
    program: &Program,
    id: ClassId,
    info: &ClassInfo,
) -> Result<Option<VerifyFault>, Memory>
    requires { IsInfoOf program.now id.0 info.now }
    ensures { IfOk result (LibraryFaultIs program.now id.0) }
{
    is_program(program);
    let linked = info.linked();
    let library = linked.library;
    if !library {
        return Ok(None);
    }
    let own = Own {
        program,
        id,
        name: info.name(),
        body: info.body(),
        linked,
    };
    let fault = body_fault_of_own(alloc, &own);
    let Own {
        program: _,
        id: _,
        name: _,
        body: _,
        linked: _,
    } = own;
    fault
}

/// Verifies the code of the library's classes, whatever the flags of their methods. The library is
/// accepted, beside the classes that the program has, or the fault is the first one: of the class
/// with the least number, and there of the first method whose code has a fault; there rule 2, then
/// rule 3 by frame, then the others by instruction and by rule. Rule 1 isn't asked.
pub fn verify_library(alloc: Global, program: &Program) -> Result<(), VerifyEnd>
    requires { AreNumbered program.now }
    ensures yes { OnOk result (IsLibraryAccepted (look program.now)) }
    ensures no { (f : VerifyFault) → result ≡ Err (Refused f) → IsFirstInLibrary program.now f }
{
    let count = program.len() as u32;
    for id in 0..count {
        let info = program.info(ClassId(id));
        let fault = library_fault(alloc, program, ClassId(id), info)?;
        if let Some(fault) = fault {
            return Err(VerifyEnd::Refused(fault));
        }
    }
    Ok(())
}

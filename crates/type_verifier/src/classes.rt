//! The first fault of a class.

ghost use Rattle.std.specs.Prelude.{◌≡◌, ◌<◌, ◌^◌, All, length, Err, IfOk, OnOk};
ghost use Rattle.type_rules.specs.Rules.{ClassAccepted};
ghost use Rattle.class_table.specs.Table.{look, name_at, IsProgram};
ghost use Rattle.vframes.specs.Named.{IsClosed};
ghost use Rattle.type_verifier.specs.Pool.{IsOwn};
ghost use Rattle.type_verifier.specs.ProgramTables.{AreTables, HasShortCode};
ghost use Rattle.type_verifier.specs.Programs.{AreNumbered, IsFileOf, IsLibraryAccepted, FirstRefusedIs, ClassFaultIs, IsRefused};
ghost use Rattle.type_verifier.specs.declared.end.VerifyFault.{VerifyFault};
ghost use Rattle.type_verifier.specs.declared.end.VerifyEnd.TheVariants.{Refused};

use crate::Own;
use crate::end::{VerifyEnd, VerifyFault};
use crate::heads::Heads;
use crate::methods::method_fault;
use crate::tables::{Tables, tables_of};
use class_link::{ClassInfo, LinkedMethod};
use class_model::{ClassId, Memory};
use class_table::Program;
use std::alloc::Global;

// The first fault of these methods, which are those of the class.
fn first_refused(
    own: &Own,
    tables: &mut Tables,
    methods: &[LinkedMethod],
) -> Result<Option<VerifyFault>, Memory>
    requires tables { AreTables own.now tables.old }
    requires methods { methods.now ≡ own.now.linked.now.methods }
    requires few { length methods.now < 2 ^ 32 }
    requires short { All HasShortCode methods.now }
    ensures { IfOk result (FirstRefusedIs own.now) }
{
    let alloc = *tables.names.list.allocator();
    let mut heads = Heads::new(alloc);
    for (k, method) in methods.iter().enumerate() {
        let fault = method_fault(own, tables, &mut heads, method)?;
        if let Some(fault) = fault {
            return Ok(Some(VerifyFault {
                class: own.id,
                method: k as u32,
                at: fault.at,
                rule: fault.rule,
            }));
        }
    }
    Ok(None)
}

/// A program has all supers that it names, and no two classes of one name.
#[tactic(auto, using(vframes::proofs::Closed::closed))]
pub fn is_program(program: &Program)
    ensures closed { IsClosed program.now }
    ensures form { IsProgram program.now }
{
    let _count = program.len();
}

// The first fault of a class, by the tables that it needs.
fn fault_of_own(alloc: Global, own: &Own) -> Result<Option<VerifyFault>, Memory>
    requires own { IsOwn own.now }
    requires few { length own.now.linked.now.methods < 2 ^ 32 }
    requires short { All HasShortCode own.now.linked.now.methods }
    ensures { IfOk result (FirstRefusedIs own.now) }
{
    let mut tables = tables_of(alloc, own)?;
    let fault = first_refused(own, &mut tables, own.linked.methods.as_slice())?;
    Ok(fault)
}

// The class of this number, of a class file.
fn fault_of_file(
    alloc: Global,
    program: &Program,
    id: ClassId,
    info: &ClassInfo,
) -> Result<Option<VerifyFault>, Memory>
    requires { IsFileOf program.now id.0 info.now }
    ensures { IfOk result (ClassFaultIs program.now id.0) }
{
    is_program(program);
    let linked = info.linked();
    let own = Own {
        program,
        id,
        name: info.name(),
        body: info.body(),
        linked,
    };
    let fault = fault_of_own(alloc, &own);
    let Own {
        program: _,
        id: _,
        name: _,
        body: _,
        linked: _,
    } = own;
    fault
}

/// The first fault of a class: of the first method that has one.
pub fn fault_of_class(
    alloc: Global,
    program: &Program,
    id: ClassId,
) -> Result<Option<VerifyFault>, Memory>
    requires within { id.0 < length program.now }
    requires numbered { AreNumbered program.now }
    requires library { IsLibraryAccepted (look program.now) }
    ensures { IfOk result (ClassFaultIs program.now id.0) }
{
    let info = program.info(id);
    let linked = info.linked();
    let library = linked.library;
    if library {
        return Ok(None);
    }
    let fault = fault_of_file(alloc, program, id, info)?;
    Ok(fault)
}

/// Verifies the methods of a class by the frames that they state, in the order of the class file.
/// The class is accepted, or the fault is the first one: of the first method that has one; there
/// rule 1, then rule 2, then rule 3 by frame, then the others by instruction and by rule. Of the
/// library nothing is verified: that it is accepted is asked for.
pub fn verify_class(alloc: Global, program: &Program, id: ClassId) -> Result<(), VerifyEnd>
    requires within { id.0 < length program.now }
    requires numbered { AreNumbered program.now }
    requires library { IsLibraryAccepted (look program.now) }
    ensures yes { OnOk result (ClassAccepted (look program.now) (name_at program.now id.0)) }
    ensures no { (f : VerifyFault) → result ≡ Err (Refused f) → IsRefused program.now id.0 f }
{
    let fault = fault_of_class(alloc, program, id)?;
    match fault {
        Some(fault) => Err(VerifyEnd::Refused(fault)),
        None => Ok(()),
    }
}

//! The program of a suite's classes.

ghost use Rattle.std.specs.Prelude.{◌≡◌, ◌≤◌, length, None, IfOk, OnOk};
ghost use Rattle.class_table.specs.Table.{look, names};
ghost use Rattle.mutant_runs.specs.Programs.{files_of};
ghost use Rattle.mutant_runs.specs.Ready.{IsReady};
ghost use Rattle.suite_program.specs.Building.{IsBuilt, RefusesTable, end_of};
ghost use Rattle.suite_program.specs.Faults.{first_fault, RefusesFirst};
ghost use Rattle.library_laws.specs.Beside.{program_of};
ghost use Rattle.suite_program.specs.Programs.{classes_in, AreSpelled, class_file, names_in, HaveFirstNumbers, IsMadeOf};

use crate::accepting::accept;
use crate::fault::{ProgramEnd, ProgramFault};
use class_model::Seq;
use class_table::{Loaded, Program, TableFault};
use lib_table::classes as library_classes;
use library_laws::{library_is_accepted_behind, library_is_bounded};
use mutant_runs::instructions_have_numbers;
use program_laws::linked_files_are_bounded;
use std::alloc::Global;

// Why there is no program, by the table's fault.
fn end_of(fault: TableFault) -> ProgramEnd
    ensures { result ≡ end_of fault }
{
    match fault {
        TableFault::Duplicate { name } => ProgramEnd::Refused(ProgramFault::Duplicate { name }),
        TableFault::SuperMissing { name } => {
            ProgramEnd::Refused(ProgramFault::SuperMissing { name })
        }
        TableFault::SuperCycle { name } => ProgramEnd::Refused(ProgramFault::SuperCycle { name }),
        TableFault::SuperKind { name } => ProgramEnd::Refused(ProgramFault::SuperKind { name }),
        TableFault::Memory => ProgramEnd::Memory,
    }
}

// The program of these classes, with the library, or the first fault of names and supers.
fn built(alloc: Global, classes: Seq<Loaded>) -> Result<Program, ProgramEnd>
    requires { AreSpelled classes }
    ensures built { IfOk result (IsBuilt classes) }
    ensures refused { RefusesTable (classes_in classes) result }
{
    linked_files_are_bounded();
    library_is_bounded();
    library_is_accepted_behind();
    instructions_have_numbers();
    let library = library_classes(alloc)?;
    match Program::build(alloc, classes, library) {
        Ok(program) => Ok(program),
        Err(fault) => Err(end_of(fault)),
    }
}

/// The program of these classes, with the library: its names are apart, its supers as they have to
/// be, and its code is accepted. Else the first fault. Its class files are these, with their bytes.
pub fn program_of(alloc: Global, classes: Seq<Loaded>) -> Result<Program, ProgramEnd>
    requires { AreSpelled classes }
    ensures accepted { OnOk result (first_fault (classes_in classes) ≡ None) }
    ensures refused { RefusesFirst (classes_in classes) result }
    ensures program { IfOk result (λ p. look p ≡ program_of (classes_in classes)) }
    ensures made { IfOk result (IsMadeOf classes) }
    ensures files { IfOk result (λ p. files_of p ≡ class_file (classes_in classes)) }
    ensures names { IfOk result (λ p. names p ≡ names_in (classes_in classes)) }
    ensures numbered { IfOk result (λ p. HaveFirstNumbers p (classes_in classes)) }
    ensures many { IfOk result (λ p. length classes ≤ length p) }
    ensures ready { IfOk result IsReady }
{
    match built(alloc, classes) {
        Ok(program) => match accept(alloc, &program) {
            Ok(()) => Ok(program),
            Err(end) => Err(end),
        },
        Err(end) => Err(end),
    }
}

//! Calls of `class_table`, each with a clause of the contract of the function that it calls, word
//! for word. A body that such a clause refuses here, the whole contract refuses there too.

ghost use Rattle.std.specs.Prelude.{◌≡◌, ◌<◌, length, OnOk};
ghost use Rattle.class_table.specs.Table.{AreDistinct, bodies_of, names_of, is_below};
ghost use Rattle.class_table.specs.Faults.{AreProgram, IsFirstMissing, IfSuperMissing};

use class_model::{ClassId, Seq};
use class_table::{LibClass, Loaded, Program, TableFault};
use std::alloc::Global;

/// `Program::build`, of which two classes have no one name
pub fn build_distinct(
    alloc: Global,
    classes: Seq<Loaded>,
    library: Seq<LibClass>,
) -> Result<Program, TableFault>
    ensures { OnOk result (AreDistinct (names_of classes library)) }
{
    Program::build(alloc, classes, library)
}

/// `Program::build`, of classes without a fault
pub fn build_faultless(
    alloc: Global,
    classes: Seq<Loaded>,
    library: Seq<LibClass>,
) -> Result<Program, TableFault>
    ensures { OnOk result (AreProgram (bodies_of classes library)) }
{
    let built = Program::build(alloc, classes, library);
    built
}

/// `Program::build`, which tells the first class that misses a super
pub fn build_present(
    alloc: Global,
    classes: Seq<Loaded>,
    library: Seq<LibClass>,
) -> Result<Program, TableFault>
    ensures { IfSuperMissing result (IsFirstMissing (bodies_of classes library)) }
{
    match Program::build(alloc, classes, library) {
        Ok(program) => Ok(program),
        Err(fault) => Err(fault),
    }
}

/// `Program::is_subtype`
pub fn is_subtype(program: &Program, class: ClassId, over: ClassId) -> bool
    requires class { class.0 < length program.now }
    requires over { over.0 < length program.now }
    ensures { result ≡ is_below program.now class.0 over.0 }
{
    let is = program.is_subtype(class, over);
    is
}

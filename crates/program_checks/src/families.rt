//! Calls of `class_family`, each with the contract of the function that it calls. A body that such
//! a contract refuses here, it refuses there too.

ghost use Rattle.std.specs.Prelude.{◌≡◌, ◌<◌, length, IfOk, IfSome, IfNone};
ghost use Rattle.program_rules.specs.Programs.{Searching, Beginning};
ghost use Rattle.class_family.specs.Families.{AreClassesOf, GoesOn, EndsAt};

use class_family::Walker;
use class_model::{ClassId, Memory};
use class_table::Program;
use std::alloc::Global;

/// `Walker::searching`
pub fn searching(alloc: Global, program: &Program, id: ClassId) -> Result<Vec<u32>, Memory>
    requires { id.0 < length program.now }
    ensures { IfOk result (λ ids. AreClassesOf Searching program.now id.0 ids.items) }
{
    let mut walker = Walker::new(alloc);
    walker.searching(program, id)?;
    let classes = walker.classes().to_vec(alloc)?;
    Ok(classes)
}

/// `Walker::beginning`
pub fn beginning(alloc: Global, program: &Program, id: ClassId) -> Result<Vec<u32>, Memory>
    requires { id.0 < length program.now }
    ensures { IfOk result (λ ids. AreClassesOf Beginning program.now id.0 ids.items) }
{
    let mut walker = Walker::new(alloc);
    walker.beginning(program, id)?;
    let found = walker.classes().to_vec(alloc)?;
    Ok(found)
}

/// `superclass`
pub fn superclass(program: &Program, id: ClassId) -> Option<ClassId>
    requires { id.0 < length program.now }
    ensures within { IfSome result (λ up. up.0 < length program.now) }
    ensures goes_on { IfSome result (λ up. GoesOn program.now id.0 up.0) }
    ensures ends { IfNone result (EndsAt program.now id.0) }
{
    let up = class_family::superclass(program, id);
    up
}

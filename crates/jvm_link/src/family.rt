//! The classes that a search for methods goes over.

ghost use Rattle.std.specs.Prelude.{◌≡◌, ◌<◌, ◌∷◌, [], length, OnOk};
ghost use Rattle.program_rules.specs.Programs.{top_of};
ghost use Rattle.class_family.specs.Families.{rising_at, EndsAt};
ghost use Rattle.jvm_link.specs.Sites.{node_at};
ghost use Rattle.jvm_link.specs.Candidates.{family_at, AreSearched};

use class_family::{Walker, superclass};
use class_model::{ClassId, Memory};
use class_table::Program;

/// The highest class above a class, which is Object: the methods of arrays are those that it has
/// (JVMS 4.10.1.2, JLS 10.7).
pub fn top(program: &Program, id: ClassId) -> ClassId
    requires { id.0 < length program.now }
    ensures within { result.0 < length program.now }
    ensures top { top_of (rising_at program.now id.0) ≡ node_at program.now result.0 ∷ [] }
    ensures ends { EndsAt program.now result.0 }
{
    let _len = program.len();
    let mut class = id;
    while let Some(up) = superclass(program, class) {
        class = up;
    }
    class
}

/// Where the walk upwards of a class begins, or that of arrays of it.
pub fn lowest(program: &Program, id: ClassId, array: bool) -> ClassId
    requires { id.0 < length program.now }
    ensures within { result.0 < length program.now }
    ensures rising { (family_at program.now id.0 array).rising ≡ rising_at program.now result.0 }
{
    if array {
        return top(program, id);
    }
    id
}

/// Finds the classes that are searched for a method of this class, or of arrays of it.
pub fn search(
    program: &Program,
    walker: &mut Walker,
    id: ClassId,
    array: bool,
) -> Result<(), Memory>
    requires { id.0 < length program.now }
    ensures { OnOk result (AreSearched program.now id.0 array walker.new) }
{
    let _len = program.len();
    if array {
        let highest = top(program, id);
        walker.alone(highest)?;
        return Ok(());
    }
    walker.searching(program, id)?;
    Ok(())
}

//! A class and its superclasses, one at a time.

ghost use Rattle.std.specs.Prelude.{◌≡◌, ◌<◌, length, IfSome, IfNone};
ghost use Rattle.class_family.specs.Families.{GoesOn, EndsAt};

use crate::steps::names_superclass;
use crate::tasks::super_at;
use class_model::ClassId;
use class_table::Program;

/// The superclass of a class, if it has one.
pub fn superclass(program: &Program, id: ClassId) -> Option<ClassId>
    requires { id.0 < length program.now }
    ensures within { IfSome result (λ up. up.0 < length program.now) }
    ensures goes_on { IfSome result (λ up. GoesOn program.now id.0 up.0) }
    ensures ends { IfNone result (EndsAt program.now id.0) }
{
    let _len = program.len();
    if !names_superclass(program.info(id)) {
        return None;
    }
    let first = super_at(program.links(id), 0)?;
    Some(ClassId(first))
}

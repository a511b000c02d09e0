//! Resolution of fields (JVMS 5.4.3.2).

ghost use Rattle.std.specs.Prelude.{◌≡◌, ◌<◌, ℕ, length, slice_get, Some, IfOk};
ghost use Rattle.class_family.specs.Families.{AreClassesOf};
ghost use Rattle.jvm_link.specs.Sites.{FindsField, ResolvesField};

use crate::declared::declared_field;
use crate::site::Site;
use class_family::{Walker, class_at};
use class_model::{ClassId, Memory, Name};
use class_table::Program;

// The first of these classes that declares such a field.
fn search_field(program: &Program, classes: &[u32], name: &Name, desc: &Name) -> Option<Site>
    requires { (k b : ℕ) → slice_get classes.now k ≡ Some b → b < length program.now }
    ensures { FindsField program.now name.now desc.now classes.now result }
{
    let mut at = 0;
    while at < classes.len() {
        let number = class_at(classes, at);
        let class = ClassId(number);
        if let Some(place) = declared_field(program, class, name, desc) {
            return Some(Site { class, place });
        }
        at += 1;
    }
    None
}

/// The field that a reference to a field of this class is resolved to: of the class, its interfaces
/// and all above them, its superclass and all above that. `None` is NoSuchFieldError. An array has
/// no fields, and isn't asked here.
pub fn resolve_field(
    program: &Program,
    walker: &mut Walker,
    id: ClassId,
    name: &Name,
    desc: &Name,
) -> Result<Option<Site>, Memory>
    requires { id.0 < length program.now }
    ensures { IfOk result (λ found. ResolvesField program.now id.0 name.now desc.now found) }
{
    let _len = program.len();
    walker.searching(program, id)?;
    Ok(search_field(program, walker.classes(), name, desc))
}

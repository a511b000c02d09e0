// Whether an object is of a class, an interface or an array type.

ghost use Rattle.std.specs.Prelude.{◌≡◌, ◌<◌, ◌||◌, length, true, false, IfOk};
ghost use Rattle.program_rules.specs.Names.{same, is_array_name, is_listed, object_name};
ghost use Rattle.program_rules.specs.Programs.{supers};
ghost use Rattle.class_table.specs.Table.{look, name_at};
ghost use Rattle.jvm_world.specs.View.{kind_in};
ghost use Rattle.jvm_type_rows.specs.Instances.{is_kind_within};

use crate::descriptors::{class_of_object, descriptor_of, descriptor_of_object};
use crate::within::{is_below, is_within};
use class_link::names::is_array_name;
use class_model::names::is_text;
use class_model::{ClassId, Memory, Name};
use class_table::Program;
use jvm_values::ObjKind;
use std::alloc::Global;

// The same by the texts of descriptors.
fn is_by_descriptors(
    alloc: Global,
    p: &Program,
    kind: &ObjKind,
    name: &Name,
) -> Result<bool, Memory>
    ensures { IfOk result (λ b. b ≡ is_kind_within p.now (kind_in p.now kind.now) name.now) }
{
    let class = class_of_object(alloc, p, kind)?;
    let own = descriptor_of_object(alloc, p, kind)?;
    let other = descriptor_of(alloc, name.as_slice())?;
    let within = is_within(alloc, p, &class, &own, &other)?;
    Ok(within)
}

// Whether the objects of a class are of this class, interface or array type.
fn is_class_below(p: &Program, class: ClassId, name: &Name) -> bool
    requires class { class.0 < length p.now }
    ensures { result ≡ (same name.now object_name
        || is_listed name.now (supers (look p.now) (name_at p.now class.0))) }
{
    is_text(name.as_slice(), b"java/lang/Object") || is_below(p, class, name)
}

// Whether a class is one of the program and its name isn't an array's.
fn is_plain(p: &Program, class: ClassId) -> bool
    ensures class { result ≡ true → class.0 < length p.now }
    ensures plain { result ≡ true → is_array_name (name_at p.now class.0) ≡ false }
{
    if class.0 as usize >= p.len() {
        return false;
    }
    !is_array_name(p.info(class).name().as_slice())
}

/// Whether what is of a kind is of a class, an interface or an array type. An object of a class is
/// asked by number, an array by its descriptor.
#[tactic(auto, using(crate::proofs::Described::kind_is))]
pub fn is_kind_within(
    alloc: Global,
    p: &Program,
    kind: &ObjKind,
    name: &Name,
) -> Result<bool, Memory>
    ensures { IfOk result (λ b. b ≡ is_kind_within p.now (kind_in p.now kind.now) name.now) }
{
    match kind {
        ObjKind::Plain(class) => {
            if is_plain(p, *class) {
                return Ok(is_class_below(p, *class, name));
            }
            is_by_descriptors(alloc, p, kind, name)
        }
        ObjKind::Text => is_by_descriptors(alloc, p, kind, name),
        ObjKind::Array(_) => is_by_descriptors(alloc, p, kind, name),
    }
}

//! The fields that a class declares, by name and descriptor.
#![tactic(auto, unfolding(class_link::specs::View::linked_of))]

ghost use Rattle.std.specs.Prelude.{◌≡◌, ◌<◌, length, map, Some, None, IfSome, IfNone};
ghost use Rattle.program_rules.specs.Outlines.{field_in};
ghost use Rattle.class_link.specs.Info.{class_of};
ghost use Rattle.class_link.specs.View.{field_of};
ghost use Rattle.jvm_link.specs.Sites.{field_place, outline_at, DeclaresField};

use class_link::{ClassInfo, LinkedField};
use class_model::{ClassId, Name};
use class_table::Program;

fn place_of(fields: &[LinkedField], name: &Name, desc: &Name) -> Option<usize>
    ensures { result ≡ field_place name.now desc.now 0 (map field_of fields.now) }
{
    for (place, field) in fields.iter().enumerate() {
        if *field.name == *name && *field.desc == *desc {
            return Some(place);
        }
    }
    None
}

fn place_in(info: &ClassInfo, name: &Name, desc: &Name) -> Option<usize>
    ensures { result ≡ field_place name.now desc.now 0 (class_of info.now).fields }
{
    place_of(info.linked().fields.as_slice(), name, desc)
}

/// The place of the field of this name and descriptor that a class declares, of two the first.
pub fn declared_field(program: &Program, id: ClassId, name: &Name, desc: &Name) -> Option<usize>
    requires { id.0 < length program.now }
    ensures some { IfSome result (λ place. DeclaresField program.now id.0 name.now desc.now place) }
    ensures none { IfNone result (field_in name.now desc.now (outline_at program.now id.0) ≡ None) }
{
    place_in(program.info(id), name, desc)
}

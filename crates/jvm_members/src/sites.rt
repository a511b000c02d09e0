//! A field by its place, and what is asked of it.

ghost use Rattle.std.specs.Prelude.{◌≡◌, ◌<◌, length};
ghost use Rattle.program_rules.specs.Linked.{LinkedField as Field};
ghost use Rattle.program_rules.specs.Outlines.{fields_in, is_interface_class, is_static_field};
ghost use Rattle.class_link.specs.View.{field_of};
ghost use Rattle.jvm_link.specs.Sites.{outline_at};
ghost use Rattle.jvm_members.specs.Sites.{Declares};

use class_link::LinkedField;
use class_model::{ClassId, flags};
use class_table::Program;
use jvm_link::Site;

/// A field of objects that a reference resolves to: the class that the reference names, where the
/// field is declared, and the number of its slot.
#[derive(Clone, Copy)]
pub struct ObjectField {
    pub named: ClassId,
    pub site: Site,
    pub slot: u32,
}

/// The field that a class declares at a place.
#[tactic(auto, unfolding(class_link::specs::View::linked_of), using(crate::proofs::Declared::field_within, crate::proofs::Declared::field_there))]
pub fn field_at(p: &Program, site: Site) -> &LinkedField
    requires class { site.class.0 < length p.now }
    requires place { site.place < length (fields_in (outline_at p.now site.class.0)) }
    ensures { Declares p.now site (field_of result.now) }
{
    let _len = p.len();
    let fields = p.info(site.class).linked().fields.as_slice();
    &fields[site.place]
}

// Whether a class is an interface.
#[tactic(auto, unfolding(class_link::specs::View::linked_of))]
fn is_interface(p: &Program, class: ClassId) -> bool
    requires { class.0 < length p.now }
    ensures { result ≡ is_interface_class (outline_at p.now class.0) }
{
    let _len = p.len();
    let flags = p.info(class).linked().flags;
    flags::is_interface(flags)
}

/// Whether a field is static: each one of an interface is.
#[tactic(auto, using(crate::proofs::Declared::static_interface, crate::proofs::Declared::static_flag))]
pub fn is_static(p: &Program, site: Site) -> bool
    requires class { site.class.0 < length p.now }
    requires place { site.place < length (fields_in (outline_at p.now site.class.0)) }
    ensures { (f : Field) → Declares p.now site f →
        result ≡ is_static_field (outline_at p.now site.class.0) f }
{
    if is_interface(p, site.class) {
        return true;
    }
    let field = field_at(p, site);
    flags::is_static(field.flags)
}

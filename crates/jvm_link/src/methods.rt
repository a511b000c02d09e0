//! The first method of a name and a descriptor in a class and its superclasses (JVMS 5.4.3.3).
#![tactic(auto, unfolding(class_link::specs::View::linked_of))]

ghost use Rattle.std.specs.Prelude.{◌≡◌, ◌<◌, length, None, IfSome, IfNone};
ghost use Rattle.program_rules.specs.Outlines.{head_in};
ghost use Rattle.jvm_link.specs.Sites.{outline_at, DeclaresMethod, FirstDeclared, OwnDeclared};

use crate::site::Site;
use class_family::superclass;
use class_model::{ClassId, Name};
use class_table::Program;

/// The place of the method of this name and descriptor that a class declares, of two the first.
pub fn declared_method(program: &Program, id: ClassId, name: &Name, desc: &Name) -> Option<usize>
    requires { id.0 < length program.now }
    ensures some { IfSome result (λ k. DeclaresMethod program.now id.0 name.now desc.now k) }
    ensures none { IfNone result (head_in name.now desc.now (outline_at program.now id.0) ≡ None) }
{
    program.info(id).linked().method_place(name, desc)
}

/// The first method of this name and descriptor in a class and its superclasses, one class at a
/// time: it takes no memory.
pub fn first_declared(program: &Program, id: ClassId, name: &Name, desc: &Name) -> Option<Site>
    requires { id.0 < length program.now }
    ensures { FirstDeclared program.now id.0 name.now desc.now result }
{
    let _len = program.len();
    let mut next = Some(id);
    while let Some(class) = next {
        if let Some(place) = declared_method(program, class, name, desc) {
            return Some(Site { class, place });
        }
        next = superclass(program, class);
    }
    None
}

/// The method of this name and descriptor of a class itself: where `<init>` is searched (JVMS
/// 5.4.3.3, 2.9.1).
pub fn own_method(program: &Program, id: ClassId, name: &Name, desc: &Name) -> Option<Site>
    requires { id.0 < length program.now }
    ensures { OwnDeclared program.now id.0 name.now desc.now result }
{
    let _len = program.len();
    let Some(place) = declared_method(program, id, name, desc) else {
        return None;
    };
    Some(Site { class: id, place })
}

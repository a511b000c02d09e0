//! How far a class has come, and whether it counts among those that are initialised before another
//! one (JVMS 5.5).
#![tactic(auto, unfolding(class_link::specs::View::linked_of))]

ghost use Rattle.std.specs.Prelude.{◌≡◌, ◌<◌, List, map, length};
ghost use Rattle.std.specs.List.{list_any};
ghost use Rattle.program_rules.specs.Outlines.{head_of, is_default, is_abstractly};
ghost use Rattle.machine_rules.specs.Initialisation.{is_initialised_before};
ghost use Rattle.class_link.specs.declared.linked.Entry.{Entry};
ghost use Rattle.class_link.specs.View.{method_of};
ghost use Rattle.jvm_world.specs.View.{IsWorldOf};
ghost use Rattle.jvm_initialization.specs.Needs.{node_at, is_interface_at, TellsState};

use class_link::{LinkedBody, LinkedMethod};
use class_model::ClassId;
use class_model::flags::{is_abstract, is_interface, is_static};
use class_table::Program;
use jvm_world::World;
use machine_rules::InitState;

/// How far a class has come. Classes of the library are done from the start.
pub fn state_of(world: &World, p: &Program, class: ClassId) -> InitState
    requires world { IsWorldOf p.now world.now }
    requires class { class.0 < length p.now }
    ensures { TellsState p.now world.now class.0 result }
{
    let info = p.info(class);
    if info.linked().library {
        return InitState::Done;
    }
    world.state(p, class)
}

/// Whether the class of a number is an interface.
pub fn is_interface_at(p: &Program, class: ClassId) -> bool
    requires { class.0 < length p.now }
    ensures { result ≡ is_interface_at p.now class.0 }
{
    let info = p.info(class);
    is_interface(info.linked().flags)
}

// Whether there is nothing to call. A method with ACC_ABSTRACT is abstract, whatever its body is.
fn is_abstractly(method: &LinkedMethod) -> bool
    ensures { (es : List Entry) →
        result ≡ is_abstractly (head_of (method_of es method.now)).callable }
{
    if is_abstract(method.flags) {
        return true;
    }
    matches!(method.body, LinkedBody::Absent)
}

// Whether a method is neither abstract nor static.
fn is_default(method: &LinkedMethod) -> bool
    ensures { (es : List Entry) → result ≡ is_default (head_of (method_of es method.now)) }
{
    !(is_abstractly(method) || is_static(method.flags))
}

fn have_default(methods: &[LinkedMethod]) -> bool
    ensures { (es : List Entry) →
        result ≡ list_any is_default (map head_of (map (method_of es) methods.now)) }
{
    for method in methods {
        if is_default(method) {
            return true;
        }
    }
    false
}

/// Whether a class counts among those that are initialised before another one: an interface does
/// where it declares a method neither abstract nor static.
pub fn counts(p: &Program, class: ClassId) -> bool
    requires { class.0 < length p.now }
    ensures { result ≡ is_initialised_before (node_at p.now class.0) }
{
    let info = p.info(class);
    let linked = info.linked();
    if !is_interface(linked.flags) {
        return true;
    }
    have_default(linked.methods.as_slice())
}

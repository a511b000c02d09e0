//! A class of a program, and what the names of classes are to it.

ghost use Rattle.std.specs.Prelude.{◌≡◌};
ghost use Rattle.std.specs.List.{list_any};
ghost use Rattle.program_rules.specs.Names.{same};
ghost use Rattle.type_rules.specs.Rows.{is_parent};
ghost use Rattle.class_link.specs.View.{linked_of};
ghost use Rattle.type_verifier.specs.Pool.{IsOwn, home_of, is_superclass, NearIs, InitialisesIs};

use class_link::{ClassBody, LinkedClass, Shared};
use class_model::{ClassId, Name};
use class_table::Program;
use vframes::{is_below, is_interface};

/// A class of a program, by its number and its name; where it comes from, and what it means.
pub struct Own<'a> {
    pub program: &'a Program,
    pub id: ClassId,
    pub name: &'a Name,
    pub body: &'a ClassBody,
    pub linked: &'a LinkedClass,
}

// Whether a class is among these.
fn is_among(names: &[Shared<Name>], name: &Name) -> bool
    ensures { result ≡ list_any (λ n. same n name.now) names.now }
{
    let mut left = names;
    while let [other, behind @ ..] = left {
        if **other == *name {
            return true;
        }
        left = behind;
    }
    false
}

// Whether a class is the superclass.
#[tactic(auto, unfolding(class_link::specs::View::linked_of))]
fn is_parent(linked: &LinkedClass, name: &Name) -> bool
    ensures { result ≡ is_parent (linked_of linked.now) name.now }
{
    match &linked.parent {
        Some(parent) => **parent == *name,
        None => false,
    }
}

// Whether a class stands above the own one, and is no interface.
fn is_superclass(own: &Own, name: &Name) -> bool
    requires { IsOwn own.now }
    ensures { result ≡ is_superclass (home_of own.now) name.now }
{
    match own.program.find(name) {
        Some(id) => {
            if is_interface(own.program, Some(id)) {
                false
            } else {
                is_below(own.program, own.id, Some(id))
            }
        }
        None => false,
    }
}

/// Whether a special call may name a class.
pub fn is_near(own: &Own, name: &Name) -> bool
    requires { IsOwn own.now }
    ensures { NearIs own.now name.now result }
{
    if *name == *own.name {
        return true;
    }
    if is_superclass(own, name) {
        return true;
    }
    is_among(own.linked.interfaces.as_slice(), name)
}

/// Whether an `<init>` of a class initialises `this`.
pub fn initialises_this(own: &Own, name: &Name) -> bool
    ensures { InitialisesIs own.now name.now result }
{
    if *name == *own.name {
        return true;
    }
    is_parent(own.linked, name)
}

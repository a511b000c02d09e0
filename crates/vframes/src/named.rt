//! What is known of the names that a class mentions.

ghost use Rattle.std.specs.Prelude.{◌≡◌, ◌<◌, IfOk, List, length};
ghost use Rattle.std.specs.Option.{option_map};
ghost use Rattle.program_rules.specs.Names.{same};
ghost use Rattle.class_link.specs.Info.{Info};
ghost use Rattle.vframes.specs.Named.{IsNamed, IsShaped, AreNamed, AreDistinct, HasComponent, HaveComponents, HasFirst, IsWithin, name_at, class_number, base as base_of};

use crate::base::{Base, take_apart};
use class_model::{ClassId, Memory, Name};
use class_table::Program;
use std::alloc::Global;

/// A class or an array by its name, taken apart, with the number of the class behind it.
#[derive(Drop)]
pub struct Named {
    pub name: Name,
    pub dimensions: usize,
    pub base: Base,
    /// The class of the base in the program, if it is there.
    pub class: Option<ClassId>,
    /// The number of the component's name, where this is an array of references.
    pub component: usize,
}

// The class of a base, if it is one that is there.
fn class_of(program: &Program, base: &Base) -> Option<ClassId>
    ensures number { option_map (λ id. id.0) result ≡ class_number program.now (base_of base.now) }
    ensures within { IsWithin program.now result }
{
    match base {
        Base::Class(name) => program.find(name),
        Base::Letter(_) => None,
    }
}

/// A name, taken apart.
pub fn name_parts(alloc: Global, program: &Program, name: &Name) -> Result<Named, Memory>
    ensures name { IfOk result (λ x. x.name ≡ name.now) }
    ensures known { IfOk result (λ x. IsNamed program.now x) }
{
    let (dimensions, base) = take_apart(alloc, name)?;
    let class = class_of(program, &base);
    Ok(Named {
        name: name.copy()?,
        dimensions,
        base,
        class,
        component: 0,
    })
}

/// The name of a number; the first one, where there are not so many.
pub fn named_at(names: &[Named], number: usize) -> &Named
    requires { HasFirst names.now }
    ensures name { result.now.name ≡ name_at names.now number }
    ensures shaped { (p : List Info) → AreNamed p names.now → IsShaped result.now }
    ensures component { HaveComponents names.now → HasComponent names.now result.now }
    ensures known { (p : List Info) → AreNamed p names.now → IsNamed p result.now }
{
    if number < names.len() {
        &names[number]
    } else {
        &names[0]
    }
}

// A number in range of the same name.
fn place(names: &[Named], number: usize) -> usize
    requires { HasFirst names.now }
    ensures name { name_at names.now result ≡ name_at names.now number }
    ensures within { result < length names.now }
{
    if number < names.len() { number } else { 0 }
}

/// Whether two numbers are of the same name.
pub fn is_same_name(names: &[Named], number: usize, other: usize) -> bool
    requires first { HasFirst names.now }
    requires distinct { AreDistinct names.now }
    ensures { result ≡ same (name_at names.now number) (name_at names.now other) }
{
    place(names, number) == place(names, other)
}

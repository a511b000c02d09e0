// The descriptors of what objects are of (JVMS 4.3.2), and the classes behind them (5.4.3.1).

ghost use Rattle.std.specs.Prelude.{◌≡◌, ◌∷◌, [], IfOk};
ghost use Rattle.program_rules.specs.Names.{descriptor_of};
ghost use Rattle.program_rules.specs.Kinds.{class_of_kind, descriptor_in};
ghost use Rattle.program_rules.specs.Objects.{class_of_object, descriptor_of_object};
ghost use Rattle.class_link.specs.Symbols.{kind_of};
ghost use Rattle.class_table.specs.Table.{name_at};
ghost use Rattle.jvm_world.specs.View.{kind_in};

use class_family::{class_behind, object_name};
use class_link::names::is_array_name;
use class_model::names::ascii;
use class_model::{ClassId, Kind, Memory, Name, Seq};
use class_table::Program;
use jvm_values::ObjKind;
use std::alloc::Global;

/// The name of the class of a number, empty where there is none.
pub fn name_at(alloc: Global, p: &Program, class: ClassId) -> Result<Name, Memory>
    ensures { IfOk result (λ n. n ≡ name_at p.now class.0) }
{
    match p.get(class) {
        Some(info) => info.name().copy(),
        None => Ok(Seq::new(alloc)),
    }
}

/// The field descriptor of a class or an array by its name.
pub fn descriptor_of(alloc: Global, name: &[u16]) -> Result<Vec<u16>, Memory>
    ensures { IfOk result (λ d. d.items ≡ descriptor_of name.now) }
{
    let mut units = Vec::new(alloc);
    if is_array_name(name) {
        units.extend_from_slice(name)?;
        return Ok(units);
    }
    units.push(b'L' as u16)?;
    units.extend_from_slice(name)?;
    units.push(b';' as u16)?;
    Ok(units)
}

// The letter of a primitive kind.
fn letter_of(alloc: Global, letter: u8) -> Result<Vec<u16>, Memory>
    ensures { IfOk result (λ d. d.items ≡ letter ∷ []) }
{
    let mut units = Vec::new(alloc);
    units.push(letter as u16)?;
    Ok(units)
}

// The field descriptor of a kind.
fn descriptor_in(alloc: Global, kind: &Kind) -> Result<Vec<u16>, Memory>
    ensures { IfOk result (λ d. d.items ≡ descriptor_in (kind_of kind.now)) }
{
    match kind {
        Kind::Ref(name) => descriptor_of(alloc, name.as_slice()),
        Kind::Boolean => letter_of(alloc, b'Z'),
        Kind::Byte => letter_of(alloc, b'B'),
        Kind::Char => letter_of(alloc, b'C'),
        Kind::Short => letter_of(alloc, b'S'),
        Kind::Int => letter_of(alloc, b'I'),
        Kind::Long => letter_of(alloc, b'J'),
    }
}

// The field descriptor of the array of elements of a kind.
fn array_descriptor(alloc: Global, kind: &Kind) -> Result<Vec<u16>, Memory>
    ensures { IfOk result (λ d. d.items ≡ 91 ∷ descriptor_in (kind_of kind.now)) }
{
    let element = descriptor_in(alloc, kind)?;
    let mut units = Vec::new(alloc);
    units.push(b'[' as u16)?;
    units.extend_from_slice(&element)?;
    Ok(units)
}

/// The field descriptor of what an object is of.
pub fn descriptor_of_object(alloc: Global, p: &Program, kind: &ObjKind) -> Result<Vec<u16>, Memory>
    ensures { IfOk result (λ d. d.items ≡ descriptor_of_object (kind_in p.now kind.now)) }
{
    match kind {
        ObjKind::Plain(class) => {
            let name = name_at(alloc, p, *class)?;
            descriptor_of(alloc, name.as_slice())
        }
        ObjKind::Text => {
            let name = ascii(alloc, "java/lang/String")?;
            descriptor_of(alloc, name.as_slice())
        }
        ObjKind::Array(kind) => array_descriptor(alloc, kind),
    }
}

// The class that is looked up for a kind, Object for a primitive one.
fn class_of_kind(alloc: Global, kind: &Kind) -> Result<Name, Memory>
    ensures { IfOk result (λ n. n ≡ class_of_kind (kind_of kind.now)) }
{
    match kind {
        Kind::Ref(name) => class_behind(alloc, name),
        Kind::Boolean | Kind::Byte | Kind::Char | Kind::Short | Kind::Int | Kind::Long => {
            object_name(alloc)
        }
    }
}

/// The class that is looked up for an object, of an array that of its element.
pub fn class_of_object(alloc: Global, p: &Program, kind: &ObjKind) -> Result<Name, Memory>
    ensures { IfOk result (λ n. n ≡ class_of_object (kind_in p.now kind.now)) }
{
    match kind {
        ObjKind::Plain(class) => name_at(alloc, p, *class),
        ObjKind::Text => ascii(alloc, "java/lang/String"),
        ObjKind::Array(kind) => class_of_kind(alloc, kind),
    }
}

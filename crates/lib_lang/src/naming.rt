//! `toString()` and `getClass()` of `java/lang/Object`, which ask for the name of a class.

ghost use Rattle.std.specs.Prelude.{◌≡◌, ◌++◌, ◌∷◌, [], List, Some, None, codes, false, IfOk};
ghost use Rattle.std.specs.Fmt.{digits};
ghost use Rattle.program_rules.specs.Names.{descriptor_of, is_array_name};
ghost use Rattle.program_rules.specs.Kinds.{descriptor_in};
ghost use Rattle.library_rules.specs.Objects as def;
ghost use Rattle.lib_core.specs.Answers.{AnswersAmong};
ghost use Rattle.lib_core.specs.View.{kind_of, kind_in, name_at};

use crate::object::dotted;
use class_model::{ClassId, Kind, Memory, Name, Seq};
use jvm_values::{ObjKind, Object};
use lib_core::{Deed, makes_text, object, receiver, this, units_of};
use program_rules::Value;
use std::alloc::Global;

// The name of the class of a number.
fn class_name(names: &[Name], class: ClassId) -> &[u16]
    ensures { result.now ≡ name_at names.now class.0 }
{
    match names.get(class.0 as usize) {
        Some(name) => name.as_slice(),
        None => &[],
    }
}

fn is_array_name(name: &[u16]) -> bool
    ensures { result ≡ is_array_name name.now }
{
    match name {
        [first, ..] => *first == 91,
        [] => false,
    }
}

// The field descriptor of a class or an array.
fn descriptor(alloc: Global, name: &[u16]) -> Result<Name, Memory>
    ensures { IfOk result (λ units. units ≡ descriptor_of name.now) }
{
    if is_array_name(name) {
        let units = Seq::from_slice(alloc, name)?;
        return Ok(units);
    }
    let mut units = units_of(alloc, "L".as_bytes())?;
    units.extend_from_slice(name)?;
    units.push(59)?;
    Ok(units)
}

// The field descriptor of an element.
fn element_descriptor(alloc: Global, kind: &Kind) -> Result<Name, Memory>
    ensures { IfOk result (λ units. units ≡ descriptor_in (kind_of kind.now)) }
{
    match kind {
        Kind::Boolean => Ok(units_of(alloc, "Z".as_bytes())?),
        Kind::Byte => Ok(units_of(alloc, "B".as_bytes())?),
        Kind::Char => Ok(units_of(alloc, "C".as_bytes())?),
        Kind::Short => Ok(units_of(alloc, "S".as_bytes())?),
        Kind::Int => Ok(units_of(alloc, "I".as_bytes())?),
        Kind::Long => Ok(units_of(alloc, "J".as_bytes())?),
        Kind::Ref(name) => Ok(descriptor(alloc, name.as_slice())?),
    }
}

fn array_name(alloc: Global, kind: &Kind) -> Result<Name, Memory>
    ensures { IfOk result (λ units. units ≡ codes "[" ++ descriptor_in (kind_of kind.now)) }
{
    let mut units = units_of(alloc, "[".as_bytes())?;
    let element = element_descriptor(alloc, kind)?;
    units.extend_from_slice(element.as_slice())?;
    Ok(units)
}

// The name of an object's class; an array's is its descriptor.
fn kind_name(alloc: Global, names: &[Name], kind: &ObjKind) -> Result<Name, Memory>
    ensures { IfOk result (λ units. units ≡ def.name_of_kind (kind_in names.now kind.now)) }
{
    match kind {
        ObjKind::Plain(class) => Ok(Seq::from_slice(alloc, class_name(names, *class))?),
        ObjKind::Array(element) => Ok(array_name(alloc, element)?),
        ObjKind::Text => Ok(units_of(alloc, "java/lang/String".as_bytes())?),
    }
}

fn hex_units(alloc: Global, number: u32) -> Result<Name, Memory>
    ensures { IfOk result (λ units. units ≡ digits 16 false number) }
{
    let digits = format!(in alloc; "{number:x}")?;
    let units = units_of(alloc, digits.as_bytes())?;
    Ok(units)
}

// The dotted name, `@` and the number.
fn object_name(alloc: Global, name: &[u16], number: u32) -> Result<Name, Memory>
    ensures { IfOk result (λ units. units ≡ def.dotted name.now ++ 64 ∷ digits 16 false number) }
{
    let mut units = dotted(alloc, name)?;
    let digits = hex_units(alloc, number)?;
    units.push(64)?;
    units.extend_from_slice(digits.as_slice())?;
    Ok(units)
}

/// `toString()`
pub fn object_text(
    alloc: Global,
    names: &[Name],
    objects: &[Object],
    args: &[Value],
) -> Result<Deed, Memory>
    ensures { IfOk result (λ d. AnswersAmong names.now def.object_text objects.now args.now d) }
{
    let Some(x) = this(args) else {
        return Ok(Deed::NoDeed);
    };
    let Some(object) = object(objects, x) else {
        return Ok(Deed::NoDeed);
    };
    let name = kind_name(alloc, names, &object.kind)?;
    let units = object_name(alloc, name.as_slice(), x)?;
    Ok(makes_text(alloc, units))
}

/// `getClass()`
pub fn object_class(
    alloc: Global,
    names: &[Name],
    objects: &[Object],
    args: &[Value],
) -> Result<Deed, Memory>
    ensures { IfOk result (λ d. AnswersAmong names.now def.object_class objects.now args.now d) }
{
    let Some(object) = receiver(objects, args) else {
        return Ok(Deed::NoDeed);
    };
    let name = kind_name(alloc, names, &object.kind)?;
    Ok(Deed::GivesClass(name))
}

//! What an array's descriptor says (JVMS 4.3.2): the kind of its components, and whether it has so
//! many dimensions.

ghost use Rattle.std.specs.Prelude.{◌≡◌, drop, IfOk};
ghost use Rattle.program_rules.specs.Names.{same, class_behind, object_name, without_first};
ghost use Rattle.program_rules.specs.Kinds.{kind_in, component_kind, class_of_kind};
ghost use Rattle.machine_rules.specs.Arrays.{has_dimensions};
ghost use Rattle.jvm_array_rows.specs.Built.{plain_of, component_of};
ghost use Rattle.jvm_array_rows.specs.Descriptors.{is_letter, IsBehind};

use class_family::element_of;
use class_link::names::{is_array_name, without_last};
use class_model::names::is_text;
use class_model::{Kind, Memory, Seq};
use jvm_type_rows::without_first;
use std::alloc::Global;

/// A text without so many units at its front.
pub fn behind(text: &[u16], count: usize) -> &[u16]
    ensures { result.now ≡ drop count text.now }
{
    if count <= text.len() {
        return &text[count..];
    }
    &text[text.len()..]
}

// A class or an array of this name as a kind.
fn reference(alloc: Global, name: &[u16]) -> Result<Kind, Memory>
    ensures { IfOk result (λ k. k ≡ Kind.Ref name.now) }
{
    Ok(Kind::Ref(Seq::from_slice(alloc, name)?))
}

// The kind of a field descriptor.
fn kind_in(alloc: Global, descriptor: &[u16]) -> Result<Kind, Memory>
    ensures { IfOk result (λ k. k ≡ plain_of (kind_in descriptor.now)) }
{
    let [unit, units @ ..] = descriptor else {
        return Ok(Kind::Int);
    };
    if *unit == b'Z' as u16 {
        return Ok(Kind::Boolean);
    }
    if *unit == b'B' as u16 {
        return Ok(Kind::Byte);
    }
    if *unit == b'C' as u16 {
        return Ok(Kind::Char);
    }
    if *unit == b'S' as u16 {
        return Ok(Kind::Short);
    }
    if *unit == b'I' as u16 {
        return Ok(Kind::Int);
    }
    if *unit == b'J' as u16 {
        return Ok(Kind::Long);
    }
    if *unit == b'L' as u16 {
        return reference(alloc, without_last(units));
    }
    reference(alloc, descriptor)
}

/// The kind of the components of an array of this name.
pub fn component_of(alloc: Global, name: &[u16]) -> Result<Kind, Memory>
    ensures { IfOk result (λ k. k ≡ component_of name.now) }
{
    kind_in(alloc, without_first(name))
}

// Whether a class is Object.
fn is_object(class: &[u16]) -> bool
    ensures { result ≡ same class.now object_name }
{
    is_text(class, b"java/lang/Object")
}

// Whether a class is the one that is looked up for a name.
fn is_behind(class: &[u16], name: &[u16]) -> bool
    ensures { result ≡ same class.now (class_behind name.now) }
{
    if !is_array_name(name) {
        return class == name;
    }
    match element_of(name) {
        [unit, units @ ..] if *unit == b'L' as u16 => class == without_last(units),
        _ => is_object(class),
    }
}

// Whether a unit is the letter of a primitive kind.
fn is_letter(unit: u16) -> bool
    ensures { result ≡ is_letter unit }
{
    unit == b'Z' as u16
        || unit == b'B' as u16
        || unit == b'C' as u16
        || unit == b'S' as u16
        || unit == b'I' as u16
        || unit == b'J' as u16
}

// Whether a class is the one that is looked up for a field descriptor.
#[tactic(auto, using(crate::proofs::Described::described_letter, crate::proofs::Described::described_class, crate::proofs::Described::described_other))]
fn is_described(class: &[u16], descriptor: &[u16]) -> bool
    ensures { result ≡ same class.now (class_of_kind (kind_in descriptor.now)) }
{
    let [unit, units @ ..] = descriptor else {
        return is_object(class);
    };
    if is_letter(*unit) {
        return is_object(class);
    }
    if *unit == b'L' as u16 {
        return is_behind(class, without_last(units));
    }
    is_behind(class, descriptor)
}

// Whether a class is the one behind the components of an array of this name. Behind the brackets
// with which a name begins stands one class.
fn is_component(class: &[u16], name: &[u16]) -> bool
    requires { IsBehind class.now name.now }
    ensures { result ≡ same class.now (class_of_kind (component_kind name.now)) }
{
    let inner = without_first(name);
    if is_array_name(name) && is_array_name(inner) {
        return true;
    }
    is_described(class, inner)
}

/// Whether the class behind a name is the one behind each array of arrays, for so many dimensions.
pub fn has_dimensions(class: &[u16], name: &[u16], count: usize) -> bool
    requires { class.now ≡ class_behind name.now }
    ensures { result ≡ has_dimensions class.now name.now count }
{
    let mut rest = name;
    let mut left = count;
    while left > 0 {
        if !is_component(class, rest) {
            return false;
        }
        rest = without_first(rest);
        left -= 1;
    }
    true
}

//! Arrays (JVMS 6.5, `iaload` to `sastore`, `newarray` to `arraylength`, `multianewarray`).
#![tactic(auto, unfolding(type_rules::specs::Rows::row))]

ghost use Rattle.std.specs.Prelude.{◌≡◌, IfOk, IfSome, IfNone, true, false};
ghost use Rattle.program_rules.specs.Instructions.{ArrayLoad, ArrayStore, ArrayLength};
ghost use Rattle.program_rules.specs.declared.operation.Element.TheVariants.{ReferenceElement};
ghost use Rattle.type_rules.specs.References.{dimensions, base_of};
ghost use Rattle.type_rules.specs.Rows.{holds, is_of_references, is_array_of, is_array_type};
ghost use Rattle.vframes.specs.Named.{AreNamed, HaveComponents, HasFirst, IsShaped};
ghost use Rattle.vframes.specs.View.{type_of};
ghost use Rattle.type_rows.specs.Sites.{RowAt, TakesArray, TakesNoArray, TakesElement, TakesNoElement, ArrayRow, NewArrayRow, MultiIs, TakesInts, TakesNoInts, IsElementOf, has_dimensions};

use crate::answer::{Answer, give};
use crate::site::Site;
use class_model::Memory;
use class_model::names::is_text;
use program_rules::Element;
use vframes::{Base, Frame, Named, SlotType, Stack, named_at};

// Whether it is an array of references.
fn is_of_references(array: &Named) -> bool
    requires { IsShaped array.now }
    ensures { result ≡ is_of_references (dimensions array.now.name) (base_of array.now.name) }
{
    match &array.base {
        Base::Class(_) => array.dimensions > 0,
        Base::Letter(_) => array.dimensions > 1,
    }
}

// Whether it is an array whose elements are of these.
fn holds(array: &Named, element: Element) -> bool
    requires { IsShaped array.now }
    ensures { result ≡ holds element array.now.name }
{
    match element {
        Element::IntElement => is_text(array.name.as_slice(), b"[I"),
        Element::LongElement => is_text(array.name.as_slice(), b"[J"),
        Element::ReferenceElement => is_of_references(array),
        Element::ByteElement => {
            is_text(array.name.as_slice(), b"[B") || is_text(array.name.as_slice(), b"[Z")
        }
        Element::CharElement => is_text(array.name.as_slice(), b"[C"),
        Element::ShortElement => is_text(array.name.as_slice(), b"[S"),
    }
}

// Whether it is an array of such elements, or null.
fn is_array_of(site: &Site, t: SlotType, element: Element) -> bool
    requires { AreNamed site.now.program.now site.now.names.now }
    ensures { result ≡ is_array_of element (type_of site.now.names.now t) }
{
    match t {
        SlotType::Null => true,
        SlotType::Obj(name) => holds(named_at(site.names, name), element),
        SlotType::Top => false,
        SlotType::Int => false,
        SlotType::Long => false,
        SlotType::UninitThis => false,
        SlotType::Uninit(_) => false,
    }
}

// Takes an array of such elements off the top, or null.
fn take_array(site: &Site, stack: &mut Stack, element: Element) -> Option<SlotType>
    requires { AreNamed site.now.program.now site.now.names.now }
    ensures some { IfSome result (λ t. TakesArray site.now element t stack.old stack.new) }
    ensures none { IfNone result (TakesNoArray site.now element stack.old) }
{
    let Some(t) = stack.pop() else {
        return None;
    };
    if is_array_of(site, t, element) {
        Some(t)
    } else {
        None
    }
}

// The type of an element of this array.
fn element_of(site: &Site, element: Element, array: SlotType) -> SlotType
    requires named { AreNamed site.now.program.now site.now.names.now }
    requires components { HaveComponents site.now.names.now }
    requires array { is_array_of element (type_of site.now.names.now array) ≡ true }
    ensures { IsElementOf site.now.names.now element array result }
{
    match element {
        Element::LongElement => SlotType::Long,
        Element::IntElement => SlotType::Int,
        Element::ByteElement => SlotType::Int,
        Element::CharElement => SlotType::Int,
        Element::ShortElement => SlotType::Int,
        Element::ReferenceElement => component_of(site.names, array),
    }
}

// The component of an array of references.
fn component_of(names: &[Named], array: SlotType) -> SlotType
    requires first { HasFirst names.now }
    requires components { HaveComponents names.now }
    requires array { is_array_of ReferenceElement (type_of names.now array) ≡ true }
    ensures { IsElementOf names.now ReferenceElement array result }
{
    match array {
        SlotType::Obj(name) => SlotType::Obj(named_at(names, name).component),
        SlotType::Null => SlotType::Null,
        SlotType::Top => SlotType::Null,
        SlotType::Int => SlotType::Null,
        SlotType::Long => SlotType::Null,
        SlotType::UninitThis => SlotType::Null,
        SlotType::Uninit(_) => SlotType::Null,
    }
}

pub fn array_load(site: &Site, f: &mut Frame, element: Element) -> Result<Answer, Memory>
    requires named { AreNamed site.now.program.now site.now.names.now }
    requires components { HaveComponents site.now.names.now }
    ensures { IfOk result (λ a. RowAt (ArrayLoad element) site.now f.old a f.new) }
{
    if !f.stack.take_int() {
        return Ok(Answer::Fails(7));
    }
    let Some(array) = take_array(site, &mut f.stack, element) else {
        return Ok(Answer::Fails(7));
    };
    f.stack.push(element_of(site, element, array))?;
    Ok(give(f, site.code.max_stack))
}

// Takes what may be stored into an array of references off the top.
fn take_stored(stack: &mut Stack) -> bool
    ensures yes { result ≡ true → TakesElement ReferenceElement stack.old stack.new }
    ensures no { result ≡ false → TakesNoElement ReferenceElement stack.old }
{
    let Some(_stored) = stack.take_reference() else {
        return false;
    };
    true
}

// Takes what may be stored into such an array off the top.
fn take_element(stack: &mut Stack, element: Element) -> bool
    ensures yes { result ≡ true → TakesElement element stack.old stack.new }
    ensures no { result ≡ false → TakesNoElement element stack.old }
{
    match element {
        Element::LongElement => stack.take_long(),
        Element::ReferenceElement => take_stored(stack),
        Element::IntElement => stack.take_int(),
        Element::ByteElement => stack.take_int(),
        Element::CharElement => stack.take_int(),
        Element::ShortElement => stack.take_int(),
    }
}

pub fn array_store(site: &Site, f: &mut Frame, element: Element) -> Answer
    requires { AreNamed site.now.program.now site.now.names.now }
    ensures { RowAt (ArrayStore element) site.now f.old result f.new }
{
    if !take_element(&mut f.stack, element) {
        return Answer::Fails(7);
    }
    if !f.stack.take_int() {
        return Answer::Fails(7);
    }
    let Some(_array) = take_array(site, &mut f.stack, element) else {
        return Answer::Fails(7);
    };
    Answer::Falls
}

/// `anewarray`; the array's name has this number.
pub fn new_reference_array(
    f: &mut Frame,
    room: u16,
    array: usize,
    few: bool,
) -> Result<Answer, Memory>
    ensures { IfOk result (λ a. ArrayRow array few room f.old a f.new) }
{
    if !f.stack.take_int() {
        return Ok(Answer::Fails(7));
    }
    f.stack.push(SlotType::Obj(array))?;
    if !f.stack.fits(room) {
        return Ok(Answer::Fails(8));
    }
    if few {
        Ok(Answer::Falls)
    } else {
        Ok(Answer::Fails(13))
    }
}

// Whether it is an array, or null.
fn is_array(site: &Site, t: SlotType) -> bool
    requires { AreNamed site.now.program.now site.now.names.now }
    ensures { result ≡ is_array_type (type_of site.now.names.now t) }
{
    match t {
        SlotType::Null => true,
        SlotType::Obj(name) => named_at(site.names, name).dimensions > 0,
        SlotType::Top => false,
        SlotType::Int => false,
        SlotType::Long => false,
        SlotType::UninitThis => false,
        SlotType::Uninit(_) => false,
    }
}

pub fn array_length(site: &Site, f: &mut Frame) -> Result<Answer, Memory>
    requires { AreNamed site.now.program.now site.now.names.now }
    ensures { IfOk result (λ a. RowAt ArrayLength site.now f.old a f.new) }
{
    let Some(t) = f.stack.pop() else {
        return Ok(Answer::Fails(7));
    };
    if !is_array(site, t) {
        return Ok(Answer::Fails(7));
    }
    f.stack.push(SlotType::Int)?;
    Ok(give(f, site.code.max_stack))
}

/// `newarray`; the array's name has this number.
pub fn new_array(f: &mut Frame, room: u16, array: usize) -> Result<Answer, Memory>
    ensures { IfOk result (λ a. NewArrayRow array room f.old a f.new) }
{
    if !f.stack.take_int() {
        return Ok(Answer::Fails(7));
    }
    f.stack.push(SlotType::Obj(array))?;
    Ok(give(f, room))
}

// Takes so many ints off the top.
fn take_ints(stack: &mut Stack, count: u8) -> bool
    ensures yes { result ≡ true → TakesInts count stack.old stack.new }
    ensures no { result ≡ false → TakesNoInts count stack.old }
{
    let mut left = count;
    while left > 0 {
        if !stack.take_int() {
            return false;
        }
        left -= 1;
    }
    true
}

// Whether an array has so many dimensions, and at least one is named.
fn has_dimensions(site: &Site, array: usize, count: u8) -> bool
    requires { AreNamed site.now.program.now site.now.names.now }
    ensures { result ≡ has_dimensions site.now array count }
{
    count > 0 && count as usize <= named_at(site.names, array).dimensions
}

/// `multianewarray` of the class of this number, by so many dimensions.
pub fn new_multi_array(
    site: &Site,
    f: &mut Frame,
    array: usize,
    count: u8,
) -> Result<Answer, Memory>
    requires { AreNamed site.now.program.now site.now.names.now }
    ensures { IfOk result (λ a. MultiIs site.now array count f.old a f.new) }
{
    if !take_ints(&mut f.stack, count) {
        return Ok(Answer::Fails(7));
    }
    f.stack.push(SlotType::Obj(array))?;
    if !f.stack.fits(site.code.max_stack) {
        return Ok(Answer::Fails(8));
    }
    if has_dimensions(site, array, count) {
        Ok(Answer::Falls)
    } else {
        Ok(Answer::Fails(13))
    }
}

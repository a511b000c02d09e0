//! Operands that name an entry of the constant pool.

ghost use Rattle.std.specs.Prelude.{◌≡◌, IfOk};
ghost use Rattle.asm_words.specs.Named.{constant, long_constant, field, method, any_method, interface, class, dimensions, class_in, interface_method, class_entry};

use crate::entry::{call_words_of, is_class_entry, is_field_desc, is_method_desc, member_name};
use crate::stated::{Operand, StatedConstant};
use crate::{is_quoted, quoted_in, s4, s8, says, u1};
use class_model::{Memory, Name};
use std::alloc::Global;

/// The class that a word names.
pub fn class_in(alloc: Global, word: &Name) -> Result<Option<Name>, Memory>
    ensures { IfOk result (λ o. o ≡ class_in word.now) }
{
    if !is_class_entry(alloc, word)? {
        return Ok(None);
    }
    Ok(Some(word.copy()?))
}

fn class_entry(alloc: Global, word: &Name) -> Result<Option<StatedConstant>, Memory>
    ensures { IfOk result (λ o. o ≡ class_entry word.now) }
{
    match class_in(alloc, word)? {
        Some(name) => Ok(Some(StatedConstant::Class(name))),
        None => Ok(None),
    }
}

/// `ldc` and `ldc_w`: a number, a class, or a text that ends the line.
pub fn constant(
    alloc: Global,
    words: &[Name],
    line: &[u16],
) -> Result<Option<StatedConstant>, Memory>
    ensures { IfOk result (λ o. o ≡ constant words.now line.now) }
{
    if is_quoted(words) {
        return match quoted_in(alloc, line)? {
            Some(text) => Ok(Some(StatedConstant::Text(text))),
            None => Ok(None),
        };
    }
    match words {
        [number] => match s4(number.as_slice()) {
            Some(value) => Ok(Some(StatedConstant::Integer(value))),
            None => Ok(None),
        },
        [keyword, name] if says(keyword, "class") => class_entry(alloc, name),
        _ => Ok(None),
    }
}

/// `ldc2_w`.
pub fn long_constant(words: &[Name]) -> Option<Operand>
    ensures { result ≡ long_constant words.now }
{
    match words {
        [word] => Some(Operand::Named(StatedConstant::Long(s8(word)?))),
        _ => None,
    }
}

/// The instructions of fields.
pub fn field(alloc: Global, words: &[Name]) -> Result<Option<Operand>, Memory>
    ensures { IfOk result (λ o. o ≡ field words.now) }
{
    let [word, desc] = words else {
        return Ok(None);
    };
    if !is_field_desc(alloc, desc)? {
        return Ok(None);
    }
    match member_name(alloc, word, desc)? {
        Some(member) => Ok(Some(Operand::Named(StatedConstant::Field(member)))),
        None => Ok(None),
    }
}

/// `invokevirtual`.
pub fn method(alloc: Global, words: &[Name]) -> Result<Option<Operand>, Memory>
    ensures { IfOk result (λ o. o ≡ method words.now) }
{
    let [word, desc] = words else {
        return Ok(None);
    };
    if !is_method_desc(alloc, desc)? {
        return Ok(None);
    }
    match member_name(alloc, word, desc)? {
        Some(member) => Ok(Some(Operand::Named(StatedConstant::Method(member)))),
        None => Ok(None),
    }
}

fn interface_method(
    alloc: Global,
    word: &Name,
    desc: &Name,
) -> Result<Option<StatedConstant>, Memory>
    ensures { IfOk result (λ o. o ≡ interface_method word.now desc.now) }
{
    if !is_method_desc(alloc, desc)? {
        return Ok(None);
    }
    match member_name(alloc, word, desc)? {
        Some(member) => Ok(Some(StatedConstant::InterfaceMethod(member))),
        None => Ok(None),
    }
}

/// `invokespecial` and `invokestatic`, where `interface` stands before a method of an interface.
pub fn any_method(alloc: Global, words: &[Name]) -> Result<Option<Operand>, Memory>
    ensures { IfOk result (λ o. o ≡ any_method words.now) }
{
    match words {
        [keyword, word, desc] if says(keyword, "interface") => {
            match interface_method(alloc, word, desc)? {
                Some(entry) => Ok(Some(Operand::Named(entry))),
                None => Ok(None),
            }
        }
        _ => method(alloc, words),
    }
}

/// `invokeinterface`, with the words of its arguments.
pub fn interface(alloc: Global, words: &[Name]) -> Result<Option<Operand>, Memory>
    ensures { IfOk result (λ o. o ≡ interface words.now) }
{
    let [word, desc] = words else {
        return Ok(None);
    };
    let Some(count) = call_words_of(alloc, desc)? else {
        return Ok(None);
    };
    match interface_method(alloc, word, desc)? {
        Some(entry) => Ok(Some(Operand::Counted(entry, count))),
        None => Ok(None),
    }
}

/// The instructions of classes.
pub fn class(alloc: Global, words: &[Name]) -> Result<Option<Operand>, Memory>
    ensures { IfOk result (λ o. o ≡ class words.now) }
{
    match words {
        [word] => match class_entry(alloc, word)? {
            Some(entry) => Ok(Some(Operand::Named(entry))),
            None => Ok(None),
        },
        _ => Ok(None),
    }
}

/// `multianewarray`.
pub fn dimensions(alloc: Global, words: &[Name]) -> Result<Option<Operand>, Memory>
    ensures { IfOk result (λ o. o ≡ dimensions words.now) }
{
    let [word, count] = words else {
        return Ok(None);
    };
    let Some(count) = u1(count) else {
        return Ok(None);
    };
    match class_in(alloc, word)? {
        Some(name) => Ok(Some(Operand::Counted(StatedConstant::Class(name), count))),
        None => Ok(None),
    }
}

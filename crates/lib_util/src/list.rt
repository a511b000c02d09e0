//! `java/util/ArrayList`, and what HashMap and HashSet have in common with it.

ghost use Rattle.std.specs.Prelude.{◌≡◌, ◌≤◌, List, [], ◌∷◌, pos, Some, None, length, IfOk};
ghost use Rattle.std.specs.Option.{option_map};
ghost use Rattle.program_rules.specs.Natives.{add_element, element_of_list, item_at};
ghost use Rattle.library_rules.specs.Arguments.{place_of};
ghost use Rattle.library_rules.specs.Collections as def;
ghost use Rattle.lib_core.specs.Answers.{Answers, AnswersAlone};

use class_model::{Memory, Seq};
use jvm_values::Object;
use lib_core::{
    Change, Deed, gives_bool, object, place, receiver, this, this_int, this_int_value, this_value,
    word,
};
use program_rules::{Fault, Value};
use std::alloc::Global;

/// `<init>(I)`
pub fn of_capacity(args: &[Value]) -> Deed
    ensures { AnswersAlone def.list_of_capacity args.now result }
{
    let Some((_, number)) = this_int(args) else {
        return Deed::NoDeed;
    };
    match place(number) {
        Some(_) => Deed::Gives(None),
        None => Deed::Throws(Fault::IllegalArgumentException),
    }
}

/// `size()`
pub fn size(objects: &[Object], args: &[Value]) -> Deed
    ensures { Answers def.list_size objects.now args.now result }
{
    let Some(object) = receiver(objects, args) else {
        return Deed::NoDeed;
    };
    Deed::Gives(Some(Value::Int(word(object.items.len()))))
}

/// `isEmpty()`
pub fn is_empty(objects: &[Object], args: &[Value]) -> Deed
    ensures { Answers def.has_no_items objects.now args.now result }
{
    let Some(object) = receiver(objects, args) else {
        return Deed::NoDeed;
    };
    gives_bool(object.items.len() == 0)
}

/// `clear()`
pub fn clear(alloc: Global, args: &[Value]) -> Deed
    ensures { AnswersAlone def.clear_items args.now result }
{
    let Some(x) = this(args) else {
        return Deed::NoDeed;
    };
    Deed::Changes(x, Change::SetItems(Seq::new(alloc)), 0, None)
}

// The item at an index, none outside.
fn item_at(items: &[Value], number: i32) -> Option<Value>
    ensures { result ≡ item_at items.now number }
{
    let i = place(number)?;
    items.get(i as usize).copied()
}

/// `get(I)`
pub fn get(objects: &[Object], args: &[Value]) -> Deed
    ensures { Answers element_of_list objects.now args.now result }
{
    let Some((x, number)) = this_int(args) else {
        return Deed::NoDeed;
    };
    let Some(object) = object(objects, x) else {
        return Deed::NoDeed;
    };
    match item_at(object.items.as_slice(), number) {
        Some(v) => Deed::Gives(Some(v)),
        None => Deed::Throws(Fault::IndexOutOfBoundsException),
    }
}

// The item at a place and the place, where there is one.
fn placed_item(items: &[Value], number: i32) -> Option<(u32, Value)>
    ensures { option_map (λ e. (e.0, e.1)) result ≡ def.placed_item items.now (place_of number) }
{
    let i = place(number)?;
    let v = items.get(i as usize)?;
    Some((i, *v))
}

/// `set(I Object)`
pub fn set(objects: &[Object], args: &[Value]) -> Deed
    ensures { Answers def.set_element objects.now args.now result }
{
    let Some((x, number, v)) = this_int_value(args) else {
        return Deed::NoDeed;
    };
    let Some(object) = object(objects, x) else {
        return Deed::NoDeed;
    };
    match placed_item(object.items.as_slice(), number) {
        Some((i, old)) => Deed::Changes(x, Change::SetItem(i as u64, v), 0, Some(old)),
        None => Deed::Throws(Fault::IndexOutOfBoundsException),
    }
}

/// `add(Object)`
pub fn add(alloc: Global, args: &[Value]) -> Result<Deed, Memory>
    ensures { IfOk result (λ d. AnswersAlone add_element args.now d) }
{
    let Some((x, v)) = this_value(args) else {
        return Ok(Deed::NoDeed);
    };
    let items = vec![in alloc; v]?;
    Ok(Deed::Changes(
        x,
        Change::AddItems(Seq::from_vec(items)),
        1,
        Some(Value::Int(1)),
    ))
}

// The place that a number names, up to the end of so many.
fn up_to(count: usize, number: i32) -> Option<u32>
    ensures { result ≡ def.up_to count (place_of number) }
{
    let i = place(number)?;
    if i as usize <= count {
        return Some(i);
    }
    None
}

/// `add(I Object)`
pub fn insert(objects: &[Object], args: &[Value]) -> Deed
    ensures { Answers def.insert_element objects.now args.now result }
{
    let Some((x, number, v)) = this_int_value(args) else {
        return Deed::NoDeed;
    };
    let Some(object) = object(objects, x) else {
        return Deed::NoDeed;
    };
    match up_to(object.items.len(), number) {
        Some(i) => Deed::Changes(x, Change::InsertItem(i, v), 1, None),
        None => Deed::Throws(Fault::IndexOutOfBoundsException),
    }
}

/// `remove(I)`
pub fn remove(objects: &[Object], args: &[Value]) -> Deed
    ensures { Answers def.remove_element objects.now args.now result }
{
    let Some((x, number)) = this_int(args) else {
        return Deed::NoDeed;
    };
    let Some(object) = object(objects, x) else {
        return Deed::NoDeed;
    };
    match placed_item(object.items.as_slice(), number) {
        Some((i, old)) => Deed::Changes(x, Change::CutItem(i), 0, Some(old)),
        None => Deed::Throws(Fault::IndexOutOfBoundsException),
    }
}

/// `hashCode()` and `toString()`, and `equals(Object)` of HashMap and HashSet
pub fn unsupported(args: &[Value]) -> Deed
    ensures { AnswersAlone def.unsupported args.now result }
{
    let _none = args.is_empty();
    Deed::Throws(Fault::UnsupportedOperationException)
}

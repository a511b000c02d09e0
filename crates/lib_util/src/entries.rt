//! `mt/Hashed`: for each entry its hash, its key and its value, one behind the other.

ghost use Rattle.std.specs.Prelude.{◌≡◌, ◌+◌, ◌*◌, ◌/◌, ◌<◌, ◌≤◌, ◌^◌, List, [], ◌∷◌, Some, None, length, slice_get, IfOk};
ghost use Rattle.std.specs.Option.{option_map};
ghost use Rattle.library_rules.specs.Arguments.{place_of};
ghost use Rattle.library_rules.specs.Collections as def;
ghost use Rattle.lib_core.specs.Answers.{Answers, AnswersAlone};

use class_model::{Memory, Seq};
use jvm_values::Object;
use lib_core::{
    Change, Deed, object, place, receiver, receiver_int, this_int, this_int_value, this_int_values,
    word,
};
use program_rules::{Fault, Value};
use std::alloc::Global;

/// `$size()`, and `size()` of HashMap and HashSet
pub fn count(objects: &[Object], args: &[Value]) -> Deed
    ensures { Answers def.entry_count objects.now args.now result }
{
    let Some(object) = receiver(objects, args) else {
        return Deed::NoDeed;
    };
    Deed::Gives(Some(Value::Int(word(object.items.len() / 3))))
}

// One of the three values of the entry at a place, and the entry's place, where there is one.
fn entry_item(part: usize, items: &[Value], number: i32) -> Option<(u32, Value)>
    requires { part < 3 }
    ensures { option_map (λ e. (e.0, e.1)) result
        ≡ def.entry_item part items.now (place_of number) }
{
    let i = place(number)?;
    let v = items.get(3 * (i as usize) + part)?;
    Some((i, *v))
}

// One of the three values of the entry at a place.
fn entry_part(part: usize, objects: &[Object], args: &[Value]) -> Deed
    requires { part < 3 }
    ensures { Answers (def.entry_part part) objects.now args.now result }
{
    let Some((object, number)) = receiver_int(objects, args) else {
        return Deed::NoDeed;
    };
    match entry_item(part, object.items.as_slice(), number) {
        Some((_, v)) => Deed::Gives(Some(v)),
        None => Deed::Throws(Fault::IndexOutOfBoundsException),
    }
}

/// `$hash(I)`
pub fn hash(objects: &[Object], args: &[Value]) -> Deed
    ensures { Answers def.entry_hash objects.now args.now result }
{
    entry_part(0, objects, args)
}

/// `$key(I)`
pub fn key(objects: &[Object], args: &[Value]) -> Deed
    ensures { Answers def.entry_key objects.now args.now result }
{
    entry_part(1, objects, args)
}

/// `$value(I)`
pub fn value(objects: &[Object], args: &[Value]) -> Deed
    ensures { Answers def.entry_value objects.now args.now result }
{
    entry_part(2, objects, args)
}

/// `$set(I Object)`
pub fn set_value(objects: &[Object], args: &[Value]) -> Deed
    ensures { Answers def.set_entry_value objects.now args.now result }
{
    let Some((x, number, v)) = this_int_value(args) else {
        return Deed::NoDeed;
    };
    let Some(object) = object(objects, x) else {
        return Deed::NoDeed;
    };
    match entry_item(2, object.items.as_slice(), number) {
        Some((i, old)) => { Deed::Changes(x, Change::SetItem(3 * (i as u64) + 2, v), 0, Some(old)) }
        None => Deed::Throws(Fault::IndexOutOfBoundsException),
    }
}

/// `$add(I Object Object)`
pub fn add(alloc: Global, args: &[Value]) -> Result<Deed, Memory>
    ensures { IfOk result (λ d. AnswersAlone def.add_entry args.now d) }
{
    let Some((x, hash, key, v)) = this_int_values(args) else {
        return Ok(Deed::NoDeed);
    };
    let items = vec![in alloc; Value::Int(hash), key, v]?;
    Ok(Deed::Changes(x, Change::AddItems(Seq::from_vec(items)), 3, None))
}

/// `$cut(I)`
pub fn cut(objects: &[Object], args: &[Value]) -> Deed
    ensures { Answers def.cut_entry objects.now args.now result }
{
    let Some((x, number)) = this_int(args) else {
        return Deed::NoDeed;
    };
    let Some(object) = object(objects, x) else {
        return Deed::NoDeed;
    };
    match entry_item(2, object.items.as_slice(), number) {
        Some((i, old)) => Deed::Changes(x, Change::CutEntry(3 * (i as u64)), 0, Some(old)),
        None => Deed::Throws(Fault::IndexOutOfBoundsException),
    }
}

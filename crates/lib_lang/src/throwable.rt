//! `java/lang/Throwable`: its first field is the message, its second one the cause.

ghost use Rattle.std.specs.Prelude.{◌≡◌, List, Some, None, slice_get, slice_set, IfOk};
ghost use Rattle.library_rules.specs.Objects as def;
ghost use Rattle.lib_core.specs.Answers.{Answers};

use class_model::{Memory, Seq};
use jvm_values::Object;
use lib_core::{Change, Deed, object, receiver, this_value, this_values};
use program_rules::Value;
use std::alloc::Global;

/// `getMessage()`
pub fn message(objects: &[Object], args: &[Value]) -> Deed
    ensures { Answers def.message objects.now args.now result }
{
    let Some(object) = receiver(objects, args) else {
        return Deed::NoDeed;
    };
    match object.values.get(0) {
        Some(v) => Deed::Gives(Some(*v)),
        None => Deed::NoDeed,
    }
}

/// `getCause()`
pub fn cause(objects: &[Object], args: &[Value]) -> Deed
    ensures { Answers def.cause objects.now args.now result }
{
    let Some(object) = receiver(objects, args) else {
        return Deed::NoDeed;
    };
    match object.values.get(1) {
        Some(v) => Deed::Gives(Some(*v)),
        None => Deed::NoDeed,
    }
}

// The values with another one at a place, if they have it.
fn with_value(values: Vec<Value>, place: usize, v: Value) -> Vec<Value>
    ensures { result.items ≡ slice_set values.items place v }
{
    let mut values = values;
    if place < values.len() {
        values[place] = v;
    }
    values
}

fn copied(alloc: Global, values: &[Value]) -> Result<Vec<Value>, Memory>
    ensures { IfOk result (λ vs. vs.items ≡ values.now) }
{
    let mut copy = Vec::with_capacity(alloc, values.len())?;
    copy.extend_from_slice(values)?;
    Ok(copy)
}

/// `<init>(String)`
pub fn set_message(alloc: Global, objects: &[Object], args: &[Value]) -> Result<Deed, Memory>
    ensures { IfOk result (λ d. Answers def.set_message objects.now args.now d) }
{
    let Some((x, v)) = this_value(args) else {
        return Ok(Deed::NoDeed);
    };
    let Some(object) = object(objects, x) else {
        return Ok(Deed::NoDeed);
    };
    let values = with_value(copied(alloc, object.values.as_slice())?, 0, v);
    Ok(Deed::Changes(x, Change::SetValues(Seq::from_vec(values)), 0, None))
}

/// `<init>(Throwable)`
pub fn set_cause(alloc: Global, objects: &[Object], args: &[Value]) -> Result<Deed, Memory>
    ensures { IfOk result (λ d. Answers def.set_cause objects.now args.now d) }
{
    let Some((x, v)) = this_value(args) else {
        return Ok(Deed::NoDeed);
    };
    let Some(object) = object(objects, x) else {
        return Ok(Deed::NoDeed);
    };
    let values = with_value(copied(alloc, object.values.as_slice())?, 1, v);
    Ok(Deed::Changes(x, Change::SetValues(Seq::from_vec(values)), 0, None))
}

/// `<init>(String Throwable)`
pub fn set_message_and_cause(
    alloc: Global,
    objects: &[Object],
    args: &[Value],
) -> Result<Deed, Memory>
    ensures { IfOk result (λ d. Answers def.set_message_and_cause objects.now args.now d) }
{
    let Some((x, message, cause)) = this_values(args) else {
        return Ok(Deed::NoDeed);
    };
    let Some(object) = object(objects, x) else {
        return Ok(Deed::NoDeed);
    };
    let values = with_value(copied(alloc, object.values.as_slice())?, 0, message);
    let values = with_value(values, 1, cause);
    Ok(Deed::Changes(x, Change::SetValues(Seq::from_vec(values)), 0, None))
}

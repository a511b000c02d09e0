//! `java/lang/Object`, `Class` and `Enum`.

ghost use Rattle.std.specs.Prelude.{◌≡◌, ◌++◌, ◌∷◌, [], List, Some, None, map, slice_get, IfOk};
ghost use Rattle.std.specs.Fmt.{digits};
ghost use Rattle.program_rules.specs.Natives.{do_nothing, kept_int};
ghost use Rattle.library_rules.specs.Objects as def;
ghost use Rattle.lib_core.specs.Answers.{Answers, AnswersAlone};

use class_model::{Memory, Name, Seq};
use jvm_values::Object;
use lib_core::{
    Change, Deed, gives_bool, is_ref_to, makes_text, minus, needed, needed_number, receiver,
    receiver_value, this, this_value, this_value_int, units_of, word,
};
use program_rules::{Fault, Value};
use std::alloc::Global;

/// An `<init>` that keeps nothing, and `Throwable.addSuppressed(Throwable)`
pub fn do_nothing(args: &[Value]) -> Deed
    ensures { AnswersAlone do_nothing args.now result }
{
    let _none = args.is_empty();
    Deed::Gives(None)
}

/// `equals(Object)`, by identity
pub fn same_object(args: &[Value]) -> Deed
    ensures { AnswersAlone def.same_object args.now result }
{
    let Some((x, v)) = this_value(args) else {
        return Deed::NoDeed;
    };
    gives_bool(is_ref_to(x, v))
}

/// `hashCode()`: the number of the allocation
pub fn allocation_number(args: &[Value]) -> Deed
    ensures { AnswersAlone def.allocation_number args.now result }
{
    let Some(x) = this(args) else {
        return Deed::NoDeed;
    };
    Deed::Gives(Some(Value::Int(word(x as usize))))
}

fn dot(unit: u16) -> u16
    ensures { result ≡ def.dot_for unit }
{
    if unit == 47 { 46 } else { unit }
}

/// A name with dots.
pub fn dotted(alloc: Global, units: &[u16]) -> Result<Name, Memory>
    ensures { IfOk result (λ name. name ≡ def.dotted units.now) }
{
    let mut name = Vec::with_capacity(alloc, units.len())?;
    for unit in units {
        name.push(dot(*unit))?;
    }
    Ok(Seq::from_vec(name))
}

// ---- Class

/// `getName()`
pub fn name_of_class(alloc: Global, objects: &[Object], args: &[Value]) -> Result<Deed, Memory>
    ensures { IfOk result (λ d. Answers def.name_of_class objects.now args.now d) }
{
    let Some(object) = receiver(objects, args) else {
        return Ok(Deed::NoDeed);
    };
    let name = dotted(alloc, object.text.as_slice())?;
    Ok(makes_text(alloc, name))
}

/// `desiredAssertionStatus()`
pub fn assertion_status(args: &[Value]) -> Deed
    ensures { AnswersAlone def.assertion_status args.now result }
{
    match this(args) {
        Some(_) => gives_bool(false),
        None => Deed::NoDeed,
    }
}

// ---- Enum

/// `<init>(String I)`
pub fn enum_init(alloc: Global, args: &[Value]) -> Result<Deed, Memory>
    ensures { IfOk result (λ d. AnswersAlone def.enum_init args.now d) }
{
    let Some((x, name, ordinal)) = this_value_int(args) else {
        return Ok(Deed::NoDeed);
    };
    let items = vec![in alloc; name, Value::Int(ordinal)]?;
    Ok(Deed::Changes(x, Change::SetItems(Seq::from_vec(items)), 0, None))
}

/// `name()`, `toString()`
pub fn enum_name(objects: &[Object], args: &[Value]) -> Deed
    ensures { Answers def.enum_name objects.now args.now result }
{
    let Some(object) = receiver(objects, args) else {
        return Deed::NoDeed;
    };
    match object.items.get(0) {
        Some(name) => Deed::Gives(Some(*name)),
        None => Deed::Gives(Some(Value::Null)),
    }
}

fn ordinal_in(object: &Object) -> i32
    ensures { kept_int (slice_get object.now.items 1) ≡ result }
{
    match object.items.get(1) {
        Some(Value::Int(ordinal)) => *ordinal,
        _ => 0,
    }
}

/// `ordinal()`
pub fn enum_ordinal(objects: &[Object], args: &[Value]) -> Deed
    ensures { Answers def.enum_ordinal objects.now args.now result }
{
    let Some(object) = receiver(objects, args) else {
        return Deed::NoDeed;
    };
    Deed::Gives(Some(Value::Int(ordinal_in(object))))
}

/// `compareTo(Enum)`
pub fn compare_enum(objects: &[Object], args: &[Value]) -> Deed
    ensures { Answers def.compare_enum objects.now args.now result }
{
    let Some((object, v)) = receiver_value(objects, args) else {
        return Deed::NoDeed;
    };
    match needed(objects, v) {
        Ok(other) => Deed::Gives(Some(Value::Int(minus(ordinal_in(object), ordinal_in(other))))),
        Err(deed) => deed,
    }
}

/// `compareTo(Object)`: of what is no constant it throws.
pub fn compare_any_enum(alloc: Global, objects: &[Object], args: &[Value]) -> Result<Deed, Memory>
    ensures { IfOk result (λ d. Answers def.compare_any_enum objects.now args.now d) }
{
    let Some((object, v)) = receiver_value(objects, args) else {
        return Ok(Deed::NoDeed);
    };
    match needed_number(objects, v) {
        Ok((x, other)) => {
            let class = units_of(alloc, "java/lang/Enum".as_bytes())?;
            let order = Value::Int(minus(ordinal_in(object), ordinal_in(other)));
            Ok(Deed::GivesWithin(x, class, order, Fault::ClassCastException))
        }
        Err(deed) => Ok(deed),
    }
}

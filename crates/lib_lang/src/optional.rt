//! `java/util/Optional`: it keeps one value, or none.

ghost use Rattle.std.specs.Prelude.{◌≡◌, List, [], ◌∷◌, Some, None, IfOk};
ghost use Rattle.library_rules.specs.Objects as def;
ghost use Rattle.lib_core.specs.Answers.{Answers, AnswersAlone};
ghost use Rattle.lib_core.specs.View.{deed_of};

use class_model::{Memory, Seq};
use jvm_values::Object;
use lib_core::{Deed, gives_bool, receiver, receiver_value, value};
use program_rules::{Fault, Making, Value};
use std::alloc::Global;

// An Optional takes two words.
fn makes_optional(alloc: Global, items: Seq<Value>) -> Deed
    ensures { deed_of result ≡ def.makes_optional items }
{
    Deed::Makes(Making::Optional, Seq::new(alloc), items, 1)
}

/// `empty()`
pub fn empty(alloc: Global, args: &[Value]) -> Deed
    ensures { AnswersAlone def.empty_optional args.now result }
{
    match args {
        [] => makes_optional(alloc, Seq::new(alloc)),
        _ => Deed::NoDeed,
    }
}

// What is kept of a value: of null nothing.
fn if_any(alloc: Global, v: Value) -> Result<Seq<Value>, Memory>
    ensures { IfOk result (λ items. items ≡ def.if_any v) }
{
    if let Value::Null = v {
        return Ok(Seq::new(alloc));
    }
    let items = vec![in alloc; v]?;
    Ok(Seq::from_vec(items))
}

/// `of(Object)`
pub fn of(alloc: Global, args: &[Value]) -> Result<Deed, Memory>
    ensures { IfOk result (λ d. AnswersAlone def.optional_of args.now d) }
{
    let Some(v) = value(args) else {
        return Ok(Deed::NoDeed);
    };
    if let Value::Null = v {
        return Ok(Deed::Throws(Fault::NullPointerException));
    }
    let items = if_any(alloc, v)?;
    Ok(makes_optional(alloc, items))
}

/// `ofNullable(Object)`
pub fn of_nullable(alloc: Global, args: &[Value]) -> Result<Deed, Memory>
    ensures { IfOk result (λ d. AnswersAlone def.optional_of_nullable args.now d) }
{
    let Some(v) = value(args) else {
        return Ok(Deed::NoDeed);
    };
    let items = if_any(alloc, v)?;
    Ok(makes_optional(alloc, items))
}

/// `isPresent()`
pub fn is_present(objects: &[Object], args: &[Value]) -> Deed
    ensures { Answers def.is_present objects.now args.now result }
{
    let Some(object) = receiver(objects, args) else {
        return Deed::NoDeed;
    };
    match object.items.as_slice() {
        [] => gives_bool(false),
        [_, ..] => gives_bool(true),
    }
}

/// `get()`
pub fn held_value(objects: &[Object], args: &[Value]) -> Deed
    ensures { Answers def.optional_value objects.now args.now result }
{
    let Some(object) = receiver(objects, args) else {
        return Deed::NoDeed;
    };
    match object.items.as_slice() {
        [] => Deed::Throws(Fault::NoSuchElementException),
        [v, ..] => Deed::Gives(Some(*v)),
    }
}

/// `orElse(Object)`
pub fn or_else(objects: &[Object], args: &[Value]) -> Deed
    ensures { Answers def.optional_or_else objects.now args.now result }
{
    let Some((object, other)) = receiver_value(objects, args) else {
        return Deed::NoDeed;
    };
    match object.items.as_slice() {
        [] => Deed::Gives(Some(other)),
        [v, ..] => Deed::Gives(Some(*v)),
    }
}

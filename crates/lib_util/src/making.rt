//! New collections: copies of a map's keys and values, empty ones, and a list of an array.

ghost use Rattle.std.specs.Prelude.{◌≡◌, ◌+◌, ◌*◌, ◌<◌, ◌≤◌, ◌^◌, List, [], ◌∷◌, ◌++◌, Some, None, length, take, drop, IfOk};
ghost use Rattle.library_rules.specs.Collections as def;
ghost use Rattle.lib_core.specs.Answers.{Answers, AnswersAlone};
ghost use Rattle.lib_core.specs.View.{deed_of};

use class_model::{Memory, Seq};
use jvm_values::Object;
use lib_core::{Deed, needed, receiver, value};
use program_rules::{Making, Value};
use std::alloc::Global;

// A new list of these: two words, and one for each element.
fn makes_list(alloc: Global, items: Seq<Value>) -> Deed
    ensures { deed_of result ≡ def.makes_list items }
{
    let words = items.len() as u64 + 1;
    Deed::Makes(Making::List, Seq::new(alloc), items, words)
}

// A new set of these entries: two words, and three for each.
fn makes_set(alloc: Global, items: Seq<Value>) -> Deed
    ensures { deed_of result ≡ def.makes_set items }
{
    let words = items.len() as u64 + 1;
    Deed::Makes(Making::Set, Seq::new(alloc), items, words)
}

fn values_of(alloc: Global, items: &[Value]) -> Result<Seq<Value>, Memory>
    ensures { IfOk result (λ vs. vs ≡ def.values_of_entries items.now) }
{
    let mut values = Vec::new(alloc);
    let mut rest = items;
    while let [_, _, v, back @ ..] = rest {
        values.push(*v)?;
        rest = back;
    }
    Ok(Seq::from_vec(values))
}

fn keys_of(alloc: Global, items: &[Value]) -> Result<Seq<Value>, Memory>
    ensures { IfOk result (λ vs. vs ≡ def.keys_of_entries items.now) }
{
    let mut entries = Vec::new(alloc);
    let mut rest = items;
    while let [hash, key, _, back @ ..] = rest {
        entries.push(*hash)?;
        entries.push(*key)?;
        entries.push(Value::Null)?;
        rest = back;
    }
    Ok(Seq::from_vec(entries))
}

/// `HashMap.keySet()`
pub fn key_set(alloc: Global, objects: &[Object], args: &[Value]) -> Result<Deed, Memory>
    ensures { IfOk result (λ d. Answers def.key_set objects.now args.now d) }
{
    let Some(object) = receiver(objects, args) else {
        return Ok(Deed::NoDeed);
    };
    let items = keys_of(alloc, object.items.as_slice())?;
    Ok(makes_set(alloc, items))
}

/// `HashMap.values()`
pub fn value_list(alloc: Global, objects: &[Object], args: &[Value]) -> Result<Deed, Memory>
    ensures { IfOk result (λ d. Answers def.value_list objects.now args.now d) }
{
    let Some(object) = receiver(objects, args) else {
        return Ok(Deed::NoDeed);
    };
    let items = values_of(alloc, object.items.as_slice())?;
    Ok(makes_list(alloc, items))
}

/// `Collections.emptyList()`
pub fn empty_list(alloc: Global, args: &[Value]) -> Deed
    ensures { AnswersAlone def.empty_list args.now result }
{
    match args {
        [] => makes_list(alloc, Seq::new(alloc)),
        _ => Deed::NoDeed,
    }
}

/// `Collections.emptySet()`
pub fn empty_set(alloc: Global, args: &[Value]) -> Deed
    ensures { AnswersAlone def.empty_set args.now result }
{
    match args {
        [] => makes_set(alloc, Seq::new(alloc)),
        _ => Deed::NoDeed,
    }
}

/// `Arrays.asList(Object[])`
pub fn as_list(alloc: Global, objects: &[Object], args: &[Value]) -> Result<Deed, Memory>
    ensures { IfOk result (λ d. Answers def.as_list objects.now args.now d) }
{
    let Some(v) = value(args) else {
        return Ok(Deed::NoDeed);
    };
    match needed(objects, v) {
        Ok(array) => {
            let items = Seq::from_slice(alloc, array.values.as_slice())?;
            Ok(makes_list(alloc, items))
        }
        Err(deed) => Ok(deed),
    }
}

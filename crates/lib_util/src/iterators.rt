//! `mt/Iter`: what is gone over is looked at as it now is.

ghost use Rattle.std.specs.Prelude.{◌≡◌, ◌+◌, ◌*◌, ◌<◌, ◌≤◌, ◌^◌, ◌<ℤ◌, ℕ, ℤ, pos, List, [], ◌∷◌, Some, None, length, slice_get, IfOk, IfSome, IfNone};
ghost use Rattle.program_rules.specs.Deeds.{Deed as Done};
ghost use Rattle.library_rules.specs.Arguments.{place_of};
ghost use Rattle.library_rules.specs.Collections as def;
ghost use Rattle.lib_core.specs.Answers.{Answers, AnswersAlone};

use class_model::{Memory, Seq};
use jvm_values::Object;
use lib_core::{Change, Deed, gives_bool, object, place, this};
use program_rules::{Fault, Making, Value};
use std::alloc::Global;

// What an iterator keeps.
fn cursor(alloc: Global, x: u32, place: i32, width: i32) -> Result<Seq<Value>, Memory>
    ensures { IfOk result (λ items. items ≡ def.cursor x place width) }
{
    let items = vec![in alloc; Value::Ref(x), Value::Int(place), Value::Int(width)]?;
    Ok(Seq::from_vec(items))
}

/// `ArrayList.iterator()`
pub fn of_list(alloc: Global, args: &[Value]) -> Result<Deed, Memory>
    ensures { IfOk result (λ d. AnswersAlone def.list_iterator args.now d) }
{
    let Some(x) = this(args) else {
        return Ok(Deed::NoDeed);
    };
    let items = cursor(alloc, x, 0, 1)?;
    Ok(Deed::Makes(Making::Iterator, Seq::new(alloc), items, 2))
}

/// `HashSet.iterator()`
pub fn of_set(alloc: Global, args: &[Value]) -> Result<Deed, Memory>
    ensures { IfOk result (λ d. AnswersAlone def.set_iterator args.now d) }
{
    let Some(x) = this(args) else {
        return Ok(Deed::NoDeed);
    };
    let items = cursor(alloc, x, 0, 3)?;
    Ok(Deed::Makes(Making::Iterator, Seq::new(alloc), items, 2))
}

// What is gone over, and where it stands.
fn cursor_of(items: &[Value]) -> Option<(u32, i32, i32)>
    ensures some { IfSome result (λ c. (none : Done) (go : ℕ → ℤ → ℤ → Done) →
        def.on_cursor items.now none go ≡ go c.0 c.1 c.2) }
    ensures none { IfNone result ((none : Done) (go : ℕ → ℤ → ℤ → Done) →
        def.on_cursor items.now none go ≡ none) }
{
    match items {
        [Value::Ref(x), Value::Int(y), Value::Int(z)] => Some((*x, *y, *z)),
        _ => None,
    }
}

fn element_place(i: u32, n: u32) -> usize
    ensures { result ≡ def.element_place i n }
{
    let offset = if 1 < n { 1 } else { 0 };
    i as usize * n as usize + offset
}

fn value_at(items: &[Value], place: usize) -> Option<Value>
    ensures { result ≡ slice_get items.now place }
{
    items.get(place).copied()
}

// The element at a place.
fn element(items: &[Value], y: i32, z: i32) -> Option<Value>
    ensures value { result ≡ def.element items.now (place_of y) (place_of z) }
    ensures small { IfSome result (λ v. y <ℤ pos 2147483647) }
{
    let i = place(y)?;
    let n = place(z)?;
    if i < 2_147_483_647 {
        return value_at(items, element_place(i, n));
    }
    None
}

/// `hasNext()`
pub fn has_next(objects: &[Object], args: &[Value]) -> Deed
    ensures { Answers def.has_next objects.now args.now result }
{
    let Some(this) = this(args) else {
        return Deed::NoDeed;
    };
    let Some(iterator) = object(objects, this) else {
        return Deed::NoDeed;
    };
    let Some((x, y, z)) = cursor_of(iterator.items.as_slice()) else {
        return gives_bool(false);
    };
    let Some(list) = object(objects, x) else {
        return Deed::NoDeed;
    };
    match element(list.items.as_slice(), y, z) {
        Some(_) => gives_bool(true),
        None => gives_bool(false),
    }
}

/// `next()`
pub fn next(alloc: Global, objects: &[Object], args: &[Value]) -> Result<Deed, Memory>
    ensures { IfOk result (λ d. Answers def.next objects.now args.now d) }
{
    let Some(this) = this(args) else {
        return Ok(Deed::NoDeed);
    };
    let Some(iterator) = object(objects, this) else {
        return Ok(Deed::NoDeed);
    };
    let Some((x, y, z)) = cursor_of(iterator.items.as_slice()) else {
        return Ok(Deed::Throws(Fault::NoSuchElementException));
    };
    let Some(list) = object(objects, x) else {
        return Ok(Deed::NoDeed);
    };
    let Some(v) = element(list.items.as_slice(), y, z) else {
        return Ok(Deed::Throws(Fault::NoSuchElementException));
    };
    let items = cursor(alloc, x, y + 1, z)?;
    Ok(Deed::Changes(this, Change::SetItems(items), 0, Some(v)))
}

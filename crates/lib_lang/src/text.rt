//! `java/lang/String`: single units, equality and order, and texts of other things.

ghost use Rattle.std.specs.Prelude.{◌≡◌, ◌&&◌, pos, List, Some, None, IfOk, IfSome, IfNone};
ghost use Rattle.program_rules.specs.Names.{Name, same};
ghost use Rattle.program_rules.specs.declared.making.Making.TheVariants as making;
ghost use Rattle.library_rules.specs.Arguments.{is_made_of, place_of};
ghost use Rattle.library_rules.specs.Texts as def;
ghost use Rattle.lib_core.specs.Answers.{Answers, AnswersKnown, AnswersAlone};
ghost use Rattle.lib_core.specs.Known.{IsKnown};
ghost use Rattle.lib_core.specs.View.{object_of};

use class_model::{Memory, Seq};
use jvm_values::Object;
use lib_core::{
    Deed, Known, bool_units, char_units, gives_bool, int, int_units, is_true, long, long_units,
    makes_text, minus, needed, place, plus, receiver, receiver_int, receiver_value, text, this,
    times, value_object, word,
};
use program_rules::{Fault, Making, Value};
use std::alloc::Global;

/// `length()`, also of a builder
pub fn length(objects: &[Object], args: &[Value]) -> Deed
    ensures { Answers def.text_length objects.now args.now result }
{
    let Some(object) = receiver(objects, args) else {
        return Deed::NoDeed;
    };
    Deed::Gives(Some(Value::Int(word(object.text.len()))))
}

/// `isEmpty()`
pub fn is_empty(objects: &[Object], args: &[Value]) -> Deed
    ensures { Answers def.is_empty objects.now args.now result }
{
    let Some(object) = receiver(objects, args) else {
        return Deed::NoDeed;
    };
    gives_bool(object.text.len() == 0)
}

// The unit at a place, if there is one.
fn unit_at(units: &[u16], number: i32) -> Option<u16>
    ensures { result ≡ def.unit_at units.now (place_of number) }
{
    let i = place(number)?;
    units.get(i as usize).copied()
}

/// `charAt(I)`, also of a builder
pub fn char_at(objects: &[Object], args: &[Value]) -> Deed
    ensures { Answers def.char_at objects.now args.now result }
{
    let Some((object, number)) = receiver_int(objects, args) else {
        return Deed::NoDeed;
    };
    match unit_at(object.text.as_slice(), number) {
        Some(unit) => Deed::Gives(Some(Value::Int(unit as i32))),
        None => Deed::Throws(Fault::StringIndexOutOfBoundsException),
    }
}

// ---- equality, order, hash

// Whether an object is a String of these units.
fn is_text(known: &Known, object: &Object, units: &[u16]) -> bool
    ensures { (ns : List Name) → IsKnown ns known.now →
        (is_made_of making.Text (object_of ns object.now) && same object.now.text units.now)
        ≡ result }
{
    known.is_made_of(Making::Text, object) && object.text.as_slice() == units
}

/// `equals(Object)`
pub fn equals(known: &Known, objects: &[Object], args: &[Value]) -> Deed
    ensures { AnswersKnown known.now def.text_equals objects.now args.now result }
{
    let Some((object, v)) = receiver_value(objects, args) else {
        return Deed::NoDeed;
    };
    match value_object(objects, v) {
        Some(other) => gives_bool(is_text(known, other, object.text.as_slice())),
        None => gives_bool(false),
    }
}

fn hash_step(hash: i32, unit: u16) -> i32
    ensures { result ≡ def.hash_step hash unit }
{
    plus(times(hash, 31), unit as i32)
}

// In int arithmetic, the polynomial in 31 of the units.
fn hash_of(units: &[u16]) -> i32
    ensures { result ≡ def.hash_from (pos 0) units.now }
{
    let mut hash: i32 = 0;
    for unit in units {
        hash = hash_step(hash, *unit);
    }
    hash
}

/// `hashCode()`
pub fn hash(objects: &[Object], args: &[Value]) -> Deed
    ensures { Answers def.text_hash objects.now args.now result }
{
    let Some(object) = receiver(objects, args) else {
        return Deed::NoDeed;
    };
    Deed::Gives(Some(Value::Int(hash_of(object.text.as_slice()))))
}

// The difference of the first units that differ, if some do.
fn first_difference(left: &[u16], right: &[u16]) -> Option<i32>
    ensures { result ≡ def.first_difference left.now right.now }
{
    for i in 0..left.len() {
        if i >= right.len() {
            return None;
        }
        if left[i] != right[i] {
            return Some(left[i] as i32 - right[i] as i32);
        }
    }
    None
}

fn order(left: &[u16], right: &[u16]) -> i32
    ensures { result ≡ def.text_order left.now right.now }
{
    match first_difference(left, right) {
        Some(difference) => difference,
        None => minus(word(left.len()), word(right.len())),
    }
}

/// `compareTo(String)`
pub fn compare(objects: &[Object], args: &[Value]) -> Deed
    ensures { Answers def.compare_text objects.now args.now result }
{
    let Some((object, v)) = receiver_value(objects, args) else {
        return Deed::NoDeed;
    };
    match text(objects, v) {
        Ok(units) => Deed::Gives(Some(Value::Int(order(object.text.as_slice(), units)))),
        Err(deed) => deed,
    }
}

/// `compareTo(Object)`: of another class than String it throws.
pub fn compare_any(known: &Known, objects: &[Object], args: &[Value]) -> Deed
    ensures { AnswersKnown known.now def.compare_any_text objects.now args.now result }
{
    let Some((object, v)) = receiver_value(objects, args) else {
        return Deed::NoDeed;
    };
    match needed(objects, v) {
        Ok(other) => {
            if known.is_made_of(Making::Text, other) {
                Deed::Gives(Some(Value::Int(order(object.text.as_slice(), other.text.as_slice()))))
            } else {
                Deed::Throws(Fault::ClassCastException)
            }
        }
        Err(deed) => deed,
    }
}

// ---- texts of other things

/// `toString()`
pub fn itself(args: &[Value]) -> Deed
    ensures { AnswersAlone def.itself args.now result }
{
    let Some(x) = this(args) else {
        return Deed::NoDeed;
    };
    Deed::Gives(Some(Value::Ref(x)))
}

/// `toCharArray()`
pub fn chars(objects: &[Object], args: &[Value]) -> Result<Deed, Memory>
    ensures { IfOk result (λ d. Answers def.text_chars objects.now args.now d) }
{
    let Some(object) = receiver(objects, args) else {
        return Ok(Deed::NoDeed);
    };
    let units = object.text.copy()?;
    Ok(Deed::MakesChars(units))
}

/// `valueOf(I)`, and `Integer.toString(I)`
pub fn of_int(alloc: Global, args: &[Value]) -> Result<Deed, Memory>
    ensures { IfOk result (λ d. AnswersAlone def.text_of_int args.now d) }
{
    let Some(number) = int(args) else {
        return Ok(Deed::NoDeed);
    };
    let units = int_units(alloc, number)?;
    Ok(makes_text(alloc, units))
}

/// `valueOf(J)`
pub fn of_long(alloc: Global, args: &[Value]) -> Result<Deed, Memory>
    ensures { IfOk result (λ d. AnswersAlone def.text_of_long args.now d) }
{
    let Some(number) = long(args) else {
        return Ok(Deed::NoDeed);
    };
    let units = long_units(alloc, number)?;
    Ok(makes_text(alloc, units))
}

/// `valueOf(C)`
pub fn of_char(alloc: Global, args: &[Value]) -> Result<Deed, Memory>
    ensures { IfOk result (λ d. AnswersAlone def.text_of_char args.now d) }
{
    let Some(number) = int(args) else {
        return Ok(Deed::NoDeed);
    };
    let units = char_units(alloc, number)?;
    Ok(makes_text(alloc, units))
}

/// `valueOf(Z)`
pub fn of_bool(alloc: Global, args: &[Value]) -> Result<Deed, Memory>
    ensures { IfOk result (λ d. AnswersAlone def.text_of_bool args.now d) }
{
    let Some(number) = int(args) else {
        return Ok(Deed::NoDeed);
    };
    let units = bool_units(alloc, is_true(number))?;
    Ok(makes_text(alloc, units))
}

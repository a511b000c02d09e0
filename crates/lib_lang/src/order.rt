//! How boxes and plain numbers are compared.

ghost use Rattle.std.specs.Prelude.{◌≡◌, ◌&&◌, List, Some, None};
ghost use Rattle.std.specs.Ordering.{int_eq};
ghost use Rattle.program_rules.specs.Names.{Name};
ghost use Rattle.library_rules.specs.Arguments.{is_made_of};
ghost use Rattle.library_rules.specs.Numbers as def;
ghost use Rattle.lib_core.specs.Answers.{Answers, AnswersKnown, AnswersAlone};
ghost use Rattle.lib_core.specs.Known.{IsKnown};
ghost use Rattle.lib_core.specs.View.{object_of};

use crate::boxes::{int_in, long_in};
use jvm_values::Object;
use lib_core::{Deed, Known, gives_bool, ints, longs, minus, needed, receiver_value, value_object};
use program_rules::{Making, Value};

// Whether an object is a box of this class that keeps the same int.
fn is_box_with(known: &Known, making: Making, object: &Object, other: &Object) -> bool
    ensures { (ns : List Name) → IsKnown ns known.now →
        def.is_box_with making (def.int_in (object_of ns object.now))
        (Some (object_of ns other.now)) ≡ result }
{
    known.is_made_of(making, other) && int_in(other) == int_in(object)
}

/// `equals(Object)` of a class of boxes of ints
pub fn box_equals(known: &Known, making: Making, objects: &[Object], args: &[Value]) -> Deed
    ensures { AnswersKnown known.now (def.box_equals making) objects.now args.now result }
{
    let Some((object, v)) = receiver_value(objects, args) else {
        return Deed::NoDeed;
    };
    match value_object(objects, v) {
        Some(other) => gives_bool(is_box_with(known, making, object, other)),
        None => gives_bool(false),
    }
}

// Whether an object is a Long that keeps the same long.
fn is_long_with(known: &Known, object: &Object, other: &Object) -> bool
    ensures { (ns : List Name) → IsKnown ns known.now →
        def.is_long_with (def.long_in (object_of ns object.now))
        (Some (object_of ns other.now)) ≡ result }
{
    known.is_made_of(Making::Long, other) && long_in(other) == long_in(object)
}

/// `Long.equals(Object)`
pub fn long_equals(known: &Known, objects: &[Object], args: &[Value]) -> Deed
    ensures { AnswersKnown known.now def.long_equals objects.now args.now result }
{
    let Some((object, v)) = receiver_value(objects, args) else {
        return Deed::NoDeed;
    };
    match value_object(objects, v) {
        Some(other) => gives_bool(is_long_with(known, object, other)),
        None => gives_bool(false),
    }
}

// -1, 0 or 1, where the first number is less, the same or greater.
fn int_order(a: i32, b: i32) -> i32
    ensures { result ≡ def.order a b }
{
    if a < b {
        return -1;
    }
    if b < a {
        return 1;
    }
    0
}

// The same of longs.
fn long_order(a: i64, b: i64) -> i32
    ensures { result ≡ def.order a b }
{
    if a < b {
        return -1;
    }
    if b < a {
        return 1;
    }
    0
}

/// `Integer.compareTo(Integer)`
pub fn compare_box(objects: &[Object], args: &[Value]) -> Deed
    ensures { Answers def.compare_box objects.now args.now result }
{
    let Some((object, v)) = receiver_value(objects, args) else {
        return Deed::NoDeed;
    };
    match needed(objects, v) {
        Ok(other) => Deed::Gives(Some(Value::Int(int_order(int_in(object), int_in(other))))),
        Err(deed) => deed,
    }
}

/// `Long.compareTo(Long)`
pub fn compare_long_box(objects: &[Object], args: &[Value]) -> Deed
    ensures { Answers def.compare_long_box objects.now args.now result }
{
    let Some((object, v)) = receiver_value(objects, args) else {
        return Deed::NoDeed;
    };
    match needed(objects, v) {
        Ok(other) => Deed::Gives(Some(Value::Int(long_order(long_in(object), long_in(other))))),
        Err(deed) => deed,
    }
}

/// `compareTo` of Short and Byte
pub fn subtract_box(objects: &[Object], args: &[Value]) -> Deed
    ensures { Answers def.subtract_box objects.now args.now result }
{
    let Some((object, v)) = receiver_value(objects, args) else {
        return Deed::NoDeed;
    };
    match needed(objects, v) {
        Ok(other) => Deed::Gives(Some(Value::Int(minus(int_in(object), int_in(other))))),
        Err(deed) => deed,
    }
}

/// `Integer.compare(II)`
pub fn compare_ints(args: &[Value]) -> Deed
    ensures { AnswersAlone def.compare_ints args.now result }
{
    let Some((a, b)) = ints(args) else {
        return Deed::NoDeed;
    };
    Deed::Gives(Some(Value::Int(int_order(a, b))))
}

/// `Long.compare(JJ)`
pub fn compare_longs(args: &[Value]) -> Deed
    ensures { AnswersAlone def.compare_longs args.now result }
{
    let Some((a, b)) = longs(args) else {
        return Deed::NoDeed;
    };
    Deed::Gives(Some(Value::Int(long_order(a, b))))
}

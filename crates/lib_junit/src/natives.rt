//! Assertions: one that fails throws AssertionError.

ghost use Rattle.std.specs.Prelude.{◌≡◌, List};
ghost use Rattle.program_rules.specs.Natives.{assert_true, assert_false};
ghost use Rattle.library_rules.specs.Assertions as def;
ghost use Rattle.library_rules.specs.Numbered.{assertion_meaning};
ghost use Rattle.lib_core.specs.Answers.{AnswersAlone};
ghost use Rattle.lib_core.specs.View.{deed_of};

use lib_core::{Deed, int, ints, is_ref_to, is_true, longs, value, values};
use library_rules::AssertionNative;
use program_rules::{Fault, Value};

// Nothing is given where something holds.
fn asserts(holds: bool) -> Deed
    ensures { deed_of result ≡ def.asserts holds }
{
    if holds {
        return Deed::Gives(None);
    }
    Deed::Throws(Fault::AssertionError)
}

/// `assertEquals(II)`
fn equal_ints(args: &[Value]) -> Deed
    ensures { AnswersAlone def.assert_equal_ints args.now result }
{
    match ints(args) {
        Some((expected, actual)) => asserts(expected == actual),
        None => Deed::NoDeed,
    }
}

/// `assertEquals(JJ)`
fn equal_longs(args: &[Value]) -> Deed
    ensures { AnswersAlone def.assert_equal_longs args.now result }
{
    match longs(args) {
        Some((expected, actual)) => asserts(expected == actual),
        None => Deed::NoDeed,
    }
}

/// `assertTrue(Z)`
fn is_asserted(args: &[Value]) -> Deed
    ensures { AnswersAlone assert_true args.now result }
{
    match int(args) {
        Some(number) => {
            if is_true(number) {
                Deed::Gives(None)
            } else {
                Deed::Throws(Fault::AssertionError)
            }
        }
        None => Deed::NoDeed,
    }
}

/// `assertFalse(Z)`
fn is_denied(args: &[Value]) -> Deed
    ensures { AnswersAlone assert_false args.now result }
{
    match int(args) {
        Some(number) => {
            if is_true(number) {
                Deed::Throws(Fault::AssertionError)
            } else {
                Deed::Gives(None)
            }
        }
        None => Deed::NoDeed,
    }
}

fn is_null(v: Value) -> bool
    ensures { result ≡ def.is_null v }
{
    match v {
        Value::Null => true,
        Value::Int(_) | Value::Long(_) | Value::Ref(_) => false,
    }
}

/// `assertNull(Object)`
fn null(args: &[Value]) -> Deed
    ensures { AnswersAlone def.assert_null args.now result }
{
    match value(args) {
        Some(v) => asserts(is_null(v)),
        None => Deed::NoDeed,
    }
}

/// `assertNotNull(Object)`
fn not_null(args: &[Value]) -> Deed
    ensures { AnswersAlone def.assert_not_null args.now result }
{
    match value(args) {
        Some(v) => asserts(!is_null(v)),
        None => Deed::NoDeed,
    }
}

// Whether two references name one object, or both are null.
fn is_same(u: Value, v: Value) -> bool
    ensures { result ≡ def.is_same u v }
{
    match u {
        Value::Ref(x) => is_ref_to(x, v),
        Value::Null => is_null(v),
        Value::Int(_) | Value::Long(_) => false,
    }
}

/// `assertSame(Object Object)`
fn same(args: &[Value]) -> Deed
    ensures { AnswersAlone def.assert_same args.now result }
{
    match values(args) {
        Some((expected, actual)) => asserts(is_same(expected, actual)),
        None => Deed::NoDeed,
    }
}

/// `assertNotSame(Object Object)`
fn not_same(args: &[Value]) -> Deed
    ensures { AnswersAlone def.assert_not_same args.now result }
{
    match values(args) {
        Some((expected, actual)) => asserts(!is_same(expected, actual)),
        None => Deed::NoDeed,
    }
}

/// `fail()`, `fail(String)` and the `$fail` of written methods
fn fail(args: &[Value]) -> Deed
    ensures { AnswersAlone def.fail args.now result }
{
    let _none = args.is_empty();
    Deed::Throws(Fault::AssertionError)
}

/// What an assertion wants done with these arguments. None looks at an object.
pub fn junit_deed(native: AssertionNative, args: &[Value]) -> Deed
    ensures { AnswersAlone (assertion_meaning native) args.now result }
{
    match native {
        AssertionNative::EqualInts => equal_ints(args),
        AssertionNative::EqualLongs => equal_longs(args),
        AssertionNative::True => is_asserted(args),
        AssertionNative::False => is_denied(args),
        AssertionNative::Null => null(args),
        AssertionNative::NotNull => not_null(args),
        AssertionNative::Same => same(args),
        AssertionNative::NotSame => not_same(args),
        AssertionNative::Fail => fail(args),
    }
}

//! What the boxes make, give and write: `java/lang/Integer`, `Long`, `Short`, `Byte`, `Character`
//! and `Boolean`.

ghost use Rattle.std.specs.Prelude.{◌≡◌, [], ◌∷◌, Some, None, slice_get, IfOk};
ghost use Rattle.program_rules.specs.Natives.{box_number, integer_value_of, short_value_of, int_value, kept_int};
ghost use Rattle.library_rules.specs.Arguments.{bit};
ghost use Rattle.library_rules.specs.Numbers as def;
ghost use Rattle.lib_core.specs.Answers.{Answers, AnswersAlone};
ghost use Rattle.lib_core.specs.View.{deed_of};

use class_model::{Memory, Seq};
use jvm_arith::{long_to_int, low_byte, low_char, low_short};
use jvm_values::Object;
use lib_core::{
    Deed, bool_units, char_units, int, int_units, is_true, long, long_units, makes_text, object,
    receiver, this,
};
use program_rules::{Making, Value};
use std::alloc::Global;

// Of a number from -128 to 127 there is one object, of another a new one is made.
fn box_number(alloc: Global, making: Making, number: i32) -> Result<Deed, Memory>
    ensures { IfOk result (λ d. box_number making number ≡ deed_of d) }
{
    if -128 <= number && number <= 127 {
        return Ok(Deed::Boxes(making, Value::Int(number)));
    }
    let items = vec![in alloc; Value::Int(number)]?;
    Ok(Deed::Makes(making, Seq::new(alloc), Seq::from_vec(items), 1))
}

/// `Integer.valueOf(I)`
pub fn of_int(alloc: Global, args: &[Value]) -> Result<Deed, Memory>
    ensures { IfOk result (λ d. AnswersAlone integer_value_of args.now d) }
{
    let Some(number) = int(args) else {
        return Ok(Deed::NoDeed);
    };
    let deed = box_number(alloc, Making::Integer, number)?;
    Ok(deed)
}

/// `Short.valueOf(S)`
pub fn of_short(alloc: Global, args: &[Value]) -> Result<Deed, Memory>
    ensures { IfOk result (λ d. AnswersAlone short_value_of args.now d) }
{
    let Some(number) = int(args) else {
        return Ok(Deed::NoDeed);
    };
    let deed = box_number(alloc, Making::Short, low_short(number))?;
    Ok(deed)
}

/// `Byte.valueOf(B)`
pub fn of_byte(alloc: Global, args: &[Value]) -> Result<Deed, Memory>
    ensures { IfOk result (λ d. AnswersAlone def.byte_value_of args.now d) }
{
    let Some(number) = int(args) else {
        return Ok(Deed::NoDeed);
    };
    let deed = box_number(alloc, Making::Byte, low_byte(number))?;
    Ok(deed)
}

/// `Character.valueOf(C)`
pub fn of_char(alloc: Global, args: &[Value]) -> Result<Deed, Memory>
    ensures { IfOk result (λ d. AnswersAlone def.char_value_of args.now d) }
{
    let Some(number) = int(args) else {
        return Ok(Deed::NoDeed);
    };
    let deed = box_number(alloc, Making::Character, low_char(number))?;
    Ok(deed)
}

/// `Boolean.valueOf(Z)`
pub fn of_bool(args: &[Value]) -> Deed
    ensures { AnswersAlone def.bool_value_of args.now result }
{
    let Some(number) = int(args) else {
        return Deed::NoDeed;
    };
    if is_true(number) {
        return Deed::Boxes(Making::Boolean, Value::Int(1));
    }
    Deed::Boxes(Making::Boolean, Value::Int(0))
}

/// `Long.valueOf(J)`
pub fn of_long(alloc: Global, args: &[Value]) -> Result<Deed, Memory>
    ensures { IfOk result (λ d. AnswersAlone def.long_value_of args.now d) }
{
    let Some(number) = long(args) else {
        return Ok(Deed::NoDeed);
    };
    if -128 <= number && number <= 127 {
        return Ok(Deed::Boxes(Making::Long, Value::Long(number)));
    }
    let items = vec![in alloc; Value::Long(number)]?;
    Ok(Deed::Makes(Making::Long, Seq::new(alloc), Seq::from_vec(items), 1))
}

// ---- what is kept

/// The int that an object keeps.
pub fn int_in(object: &Object) -> i32
    ensures { kept_int (slice_get object.now.items 0) ≡ result }
{
    match object.items.get(0) {
        Some(Value::Int(number)) => *number,
        _ => 0,
    }
}

/// The long that an object keeps.
pub fn long_in(object: &Object) -> i64
    ensures { def.kept_long (slice_get object.now.items 0) ≡ result }
{
    match object.items.get(0) {
        Some(Value::Long(number)) => *number,
        _ => 0,
    }
}

/// `intValue()` of Integer, `shortValue()`, `byteValue()`, `charValue()`, `booleanValue()`, and
/// `hashCode()` of all but Long and Boolean
pub fn int_value(objects: &[Object], args: &[Value]) -> Deed
    ensures { Answers int_value objects.now args.now result }
{
    let Some(x) = this(args) else {
        return Deed::NoDeed;
    };
    let Some(object) = object(objects, x) else {
        return Deed::NoDeed;
    };
    Deed::Gives(Some(Value::Int(int_in(object))))
}

/// `Integer.longValue()`
pub fn int_as_long(objects: &[Object], args: &[Value]) -> Deed
    ensures { Answers def.int_as_long objects.now args.now result }
{
    let Some(object) = receiver(objects, args) else {
        return Deed::NoDeed;
    };
    Deed::Gives(Some(Value::Long(int_in(object) as i64)))
}

/// `Long.longValue()`
pub fn long_value(objects: &[Object], args: &[Value]) -> Deed
    ensures { Answers def.long_value objects.now args.now result }
{
    let Some(object) = receiver(objects, args) else {
        return Deed::NoDeed;
    };
    Deed::Gives(Some(Value::Long(long_in(object))))
}

/// `Long.intValue()`
pub fn long_as_int(objects: &[Object], args: &[Value]) -> Deed
    ensures { Answers def.long_as_int objects.now args.now result }
{
    let Some(object) = receiver(objects, args) else {
        return Deed::NoDeed;
    };
    Deed::Gives(Some(Value::Int(long_to_int(long_in(object)))))
}

// The exclusive or of both halves.
fn fold_halves(number: i64) -> i32
    ensures { result ≡ def.fold_halves number }
{
    let upper = number.cast_unsigned().wrapping_shr(32).cast_signed();
    long_to_int(number ^ upper)
}

/// `Long.hashCode()`
pub fn long_hash(objects: &[Object], args: &[Value]) -> Deed
    ensures { Answers def.long_hash objects.now args.now result }
{
    let Some(object) = receiver(objects, args) else {
        return Deed::NoDeed;
    };
    Deed::Gives(Some(Value::Int(fold_halves(long_in(object)))))
}

/// `Boolean.hashCode()`
pub fn bool_hash(objects: &[Object], args: &[Value]) -> Deed
    ensures { Answers def.bool_hash objects.now args.now result }
{
    let Some(object) = receiver(objects, args) else {
        return Deed::NoDeed;
    };
    if is_true(int_in(object)) {
        return Deed::Gives(Some(Value::Int(1231)));
    }
    Deed::Gives(Some(Value::Int(1237)))
}

// ---- texts

/// `toString()` of Integer, Short and Byte
pub fn int_text(alloc: Global, objects: &[Object], args: &[Value]) -> Result<Deed, Memory>
    ensures { IfOk result (λ d. Answers def.box_text objects.now args.now d) }
{
    let Some(object) = receiver(objects, args) else {
        return Ok(Deed::NoDeed);
    };
    let units = int_units(alloc, int_in(object))?;
    Ok(makes_text(alloc, units))
}

/// `Long.toString()`
pub fn long_text(alloc: Global, objects: &[Object], args: &[Value]) -> Result<Deed, Memory>
    ensures { IfOk result (λ d. Answers def.long_text objects.now args.now d) }
{
    let Some(object) = receiver(objects, args) else {
        return Ok(Deed::NoDeed);
    };
    let units = long_units(alloc, long_in(object))?;
    Ok(makes_text(alloc, units))
}

/// `Character.toString()`
pub fn char_text(alloc: Global, objects: &[Object], args: &[Value]) -> Result<Deed, Memory>
    ensures { IfOk result (λ d. Answers def.char_box_text objects.now args.now d) }
{
    let Some(object) = receiver(objects, args) else {
        return Ok(Deed::NoDeed);
    };
    let units = char_units(alloc, int_in(object))?;
    Ok(makes_text(alloc, units))
}

/// `Boolean.toString()`
pub fn bool_text(alloc: Global, objects: &[Object], args: &[Value]) -> Result<Deed, Memory>
    ensures { IfOk result (λ d. Answers def.bool_box_text objects.now args.now d) }
{
    let Some(object) = receiver(objects, args) else {
        return Ok(Deed::NoDeed);
    };
    let units = bool_units(alloc, is_true(int_in(object)))?;
    Ok(makes_text(alloc, units))
}

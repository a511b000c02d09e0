//! `java/lang/StringBuilder`.

ghost use Rattle.std.specs.Prelude.{◌≡◌, List, codes, IfOk, IfSome, IfNone, Some, None};
ghost use Rattle.program_rules.specs.Names.{Name as Text};
ghost use Rattle.program_rules.specs.Objects.{object_at};
ghost use Rattle.program_rules.specs.Natives.{append_text, builder_text, text_in, text_of};
ghost use Rattle.library_rules.specs.Texts as def;
ghost use Rattle.lib_core.specs.Answers.{Answers, AnswersAlone};
ghost use Rattle.lib_core.specs.View.{objects_of, deed_of};

use class_model::{Memory, Name, Seq};
use jvm_values::Object;
use lib_core::{
    Change, Deed, bool_units, char_units, int_units, is_true, long_units, makes_text, object,
    place, text, this, this_int, this_long, this_value, units_of, value_object,
};
use program_rules::{Fault, Value};
use std::alloc::Global;

/// `<init>(I)`
pub fn of_capacity(args: &[Value]) -> Deed
    ensures { AnswersAlone def.builder_of_capacity args.now result }
{
    let Some((_, number)) = this_int(args) else {
        return Deed::NoDeed;
    };
    match place(number) {
        Some(_) => Deed::Gives(None),
        None => Deed::Throws(Fault::NegativeArraySizeException),
    }
}

/// `<init>(String)`
pub fn of_text(alloc: Global, objects: &[Object], args: &[Value]) -> Result<Deed, Memory>
    ensures { IfOk result (λ d. Answers def.builder_of_text objects.now args.now d) }
{
    let Some((x, v)) = this_value(args) else {
        return Ok(Deed::NoDeed);
    };
    let units = match text(objects, v) {
        Ok(units) => units,
        Err(deed) => return Ok(deed),
    };
    let words = units.len() as u64;
    let units = Seq::from_slice(alloc, units)?;
    Ok(Deed::Changes(x, Change::SetText(units), words, None))
}

// Units are added, a word for each.
fn append(x: u32, units: Name) -> Deed
    ensures { deed_of result ≡ def.appends x units }
{
    let words = units.len() as u64;
    Deed::Changes(x, Change::AddText(units), words, Some(Value::Ref(x)))
}

// The units of an object, if there is one.
fn object_units(alloc: Global, objects: &[Object], number: u32) -> Result<Option<Name>, Memory>
    ensures { IfOk result (λ o. (ns : List Text) →
        text_in (object_at (objects_of ns objects.now) number) ≡ o) }
{
    match object(objects, number) {
        Some(object) => {
            let units = Seq::from_slice(alloc, object.text.as_slice())?;
            Ok(Some(units))
        }
        None => Ok(None),
    }
}

// The units that a text gives to another one.
fn units_in(alloc: Global, objects: &[Object], v: Value) -> Result<Option<Name>, Memory>
    ensures { IfOk result (λ o. (ns : List Text) → text_of (objects_of ns objects.now) v ≡ o) }
{
    match v {
        Value::Null => {
            let units = units_of(alloc, "null".as_bytes())?;
            Ok(Some(units))
        }
        Value::Ref(x) => Ok(object_units(alloc, objects, x)?),
        Value::Int(_) | Value::Long(_) => Ok(None),
    }
}

/// `append(String)`
pub fn append_text(alloc: Global, objects: &[Object], args: &[Value]) -> Result<Deed, Memory>
    ensures { IfOk result (λ d. Answers append_text objects.now args.now d) }
{
    let Some((x, v)) = this_value(args) else {
        return Ok(Deed::NoDeed);
    };
    match units_in(alloc, objects, v)? {
        Some(units) => Ok(append(x, units)),
        None => Ok(Deed::NoDeed),
    }
}

/// `append(I)`
pub fn append_int(alloc: Global, args: &[Value]) -> Result<Deed, Memory>
    ensures { IfOk result (λ d. AnswersAlone def.append_int args.now d) }
{
    let Some((x, number)) = this_int(args) else {
        return Ok(Deed::NoDeed);
    };
    let units = int_units(alloc, number)?;
    Ok(append(x, units))
}

/// `append(J)`
pub fn append_long(alloc: Global, args: &[Value]) -> Result<Deed, Memory>
    ensures { IfOk result (λ d. AnswersAlone def.append_long args.now d) }
{
    let Some((x, number)) = this_long(args) else {
        return Ok(Deed::NoDeed);
    };
    let units = long_units(alloc, number)?;
    Ok(append(x, units))
}

/// `append(C)`
pub fn append_char(alloc: Global, args: &[Value]) -> Result<Deed, Memory>
    ensures { IfOk result (λ d. AnswersAlone def.append_char args.now d) }
{
    let Some((x, number)) = this_int(args) else {
        return Ok(Deed::NoDeed);
    };
    let units = char_units(alloc, number)?;
    Ok(append(x, units))
}

/// `append(Z)`
pub fn append_bool(alloc: Global, args: &[Value]) -> Result<Deed, Memory>
    ensures { IfOk result (λ d. AnswersAlone def.append_bool args.now d) }
{
    let Some((x, number)) = this_int(args) else {
        return Ok(Deed::NoDeed);
    };
    let units = bool_units(alloc, is_true(number))?;
    Ok(append(x, units))
}

/// `toString()`
pub fn to_text(alloc: Global, objects: &[Object], args: &[Value]) -> Result<Deed, Memory>
    ensures { IfOk result (λ d. Answers builder_text objects.now args.now d) }
{
    let Some(x) = this(args) else {
        return Ok(Deed::NoDeed);
    };
    let Some(object) = object(objects, x) else {
        return Ok(Deed::NoDeed);
    };
    let units = Seq::from_slice(alloc, object.text.as_slice())?;
    Ok(makes_text(alloc, units))
}

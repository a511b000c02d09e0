//! How native methods read their arguments, and what the arguments name. None is for arguments of
//! another form, for which there is no row.

ghost use Rattle.std.specs.Prelude.{◌≡◌, slice_get, IfSome, IfNone, IfOk, IfErr};
ghost use Rattle.std.specs.Option.{option_copied};
ghost use Rattle.program_rules.specs.Objects.{object_at};
ghost use Rattle.program_rules.specs.Deeds.{NoDeed, value_object};
ghost use Rattle.program_rules.specs.Natives.{on_this, on_this_int, on_this_value, on_int};
ghost use Rattle.library_rules.specs.Arguments.{on_receiver, on_receiver_int, on_receiver_value, on_this_ints, on_this_long, on_this_values, on_this_int_value, on_this_value_int, on_this_int_values, on_ints, on_long, on_longs, on_value, on_values, on_needed, on_needed_number, on_text, is_ref_to, place_of};
ghost use Rattle.lib_core.specs.View.{deed_of};
ghost use Rattle.lib_core.specs.Forms.{Hands, HandsTwo, HandsThree, HandsFour, HandsNone, HandsObject, HandsObjectWith, HandsNumbered, HandsSeen, Ends, Finds, FindsNone};

use crate::deed::Deed;
use jvm_values::Object;
use program_rules::{Fault, Value};

/// The receiver.
pub fn this(args: &[Value]) -> Option<u32>
    ensures some { IfSome result (λ x. Hands (on_this args.now) x) }
    ensures none { IfNone result (HandsNone (on_this args.now)) }
{
    match args {
        [Value::Ref(x)] => Some(*x),
        _ => None,
    }
}

/// The receiver and an int.
pub fn this_int(args: &[Value]) -> Option<(u32, i32)>
    ensures some { IfSome result (λ x. HandsTwo (on_this_int args.now) x.0 x.1) }
    ensures none { IfNone result (HandsNone (on_this_int args.now)) }
{
    match args {
        [Value::Ref(x), Value::Int(z)] => Some((*x, *z)),
        _ => None,
    }
}

/// The receiver and two ints.
pub fn this_ints(args: &[Value]) -> Option<(u32, i32, i32)>
    ensures some { IfSome result (λ x. HandsThree (on_this_ints args.now) x.0 x.1 x.2) }
    ensures none { IfNone result (HandsNone (on_this_ints args.now)) }
{
    match args {
        [Value::Ref(x), Value::Int(y), Value::Int(z)] => Some((*x, *y, *z)),
        _ => None,
    }
}

/// The receiver and a long.
pub fn this_long(args: &[Value]) -> Option<(u32, i64)>
    ensures some { IfSome result (λ x. HandsTwo (on_this_long args.now) x.0 x.1) }
    ensures none { IfNone result (HandsNone (on_this_long args.now)) }
{
    match args {
        [Value::Ref(x), Value::Long(z)] => Some((*x, *z)),
        _ => None,
    }
}

/// The receiver and any value.
pub fn this_value(args: &[Value]) -> Option<(u32, Value)>
    ensures some { IfSome result (λ x. HandsTwo (on_this_value args.now) x.0 x.1) }
    ensures none { IfNone result (HandsNone (on_this_value args.now)) }
{
    match args {
        [Value::Ref(x), v] => Some((*x, *v)),
        _ => None,
    }
}

/// The receiver and two values.
pub fn this_values(args: &[Value]) -> Option<(u32, Value, Value)>
    ensures some { IfSome result (λ x. HandsThree (on_this_values args.now) x.0 x.1 x.2) }
    ensures none { IfNone result (HandsNone (on_this_values args.now)) }
{
    match args {
        [Value::Ref(x), u, v] => Some((*x, *u, *v)),
        _ => None,
    }
}

/// The receiver, an int and any value.
pub fn this_int_value(args: &[Value]) -> Option<(u32, i32, Value)>
    ensures some { IfSome result (λ x. HandsThree (on_this_int_value args.now) x.0 x.1 x.2) }
    ensures none { IfNone result (HandsNone (on_this_int_value args.now)) }
{
    match args {
        [Value::Ref(x), Value::Int(z), v] => Some((*x, *z, *v)),
        _ => None,
    }
}

/// The receiver, any value and an int.
pub fn this_value_int(args: &[Value]) -> Option<(u32, Value, i32)>
    ensures some { IfSome result (λ x. HandsThree (on_this_value_int args.now) x.0 x.1 x.2) }
    ensures none { IfNone result (HandsNone (on_this_value_int args.now)) }
{
    match args {
        [Value::Ref(x), v, Value::Int(z)] => Some((*x, *v, *z)),
        _ => None,
    }
}

/// The receiver, an int and two values.
pub fn this_int_values(args: &[Value]) -> Option<(u32, i32, Value, Value)>
    ensures some { IfSome result (λ x. HandsFour (on_this_int_values args.now) x.0 x.1 x.2 x.3) }
    ensures none { IfNone result (HandsNone (on_this_int_values args.now)) }
{
    match args {
        [Value::Ref(x), Value::Int(z), u, v] => Some((*x, *z, *u, *v)),
        _ => None,
    }
}

/// One int.
pub fn int(args: &[Value]) -> Option<i32>
    ensures some { IfSome result (λ x. Hands (on_int args.now) x) }
    ensures none { IfNone result (HandsNone (on_int args.now)) }
{
    match args {
        [Value::Int(z)] => Some(*z),
        _ => None,
    }
}

/// Two ints.
pub fn ints(args: &[Value]) -> Option<(i32, i32)>
    ensures some { IfSome result (λ x. HandsTwo (on_ints args.now) x.0 x.1) }
    ensures none { IfNone result (HandsNone (on_ints args.now)) }
{
    match args {
        [Value::Int(y), Value::Int(z)] => Some((*y, *z)),
        _ => None,
    }
}

/// One long.
pub fn long(args: &[Value]) -> Option<i64>
    ensures some { IfSome result (λ x. Hands (on_long args.now) x) }
    ensures none { IfNone result (HandsNone (on_long args.now)) }
{
    match args {
        [Value::Long(z)] => Some(*z),
        _ => None,
    }
}

/// Two longs.
pub fn longs(args: &[Value]) -> Option<(i64, i64)>
    ensures some { IfSome result (λ x. HandsTwo (on_longs args.now) x.0 x.1) }
    ensures none { IfNone result (HandsNone (on_longs args.now)) }
{
    match args {
        [Value::Long(y), Value::Long(z)] => Some((*y, *z)),
        _ => None,
    }
}

/// Any value.
pub fn value(args: &[Value]) -> Option<Value>
    ensures some { IfSome result (λ x. Hands (on_value args.now) x) }
    ensures none { IfNone result (HandsNone (on_value args.now)) }
{
    match args {
        [v] => Some(*v),
        _ => None,
    }
}

/// Two values.
pub fn values(args: &[Value]) -> Option<(Value, Value)>
    ensures some { IfSome result (λ x. HandsTwo (on_values args.now) x.0 x.1) }
    ensures none { IfNone result (HandsNone (on_values args.now)) }
{
    match args {
        [u, v] => Some((*u, *v)),
        _ => None,
    }
}

fn at(objects: &[Object], place: usize) -> Option<&Object>
    ensures { option_copied result ≡ slice_get objects.now place }
{
    objects.get(place)
}

/// The object of a number.
pub fn object(objects: &[Object], number: u32) -> Option<&Object>
    ensures some { IfSome result (λ o. Finds (λ h. object_at h number) objects.now o.now) }
    ensures none { IfNone result (FindsNone (λ h. object_at h number) objects.now) }
{
    let place = number.checked_sub(1)?;
    match at(objects, place as usize) {
        Some(object) => Some(object),
        None => None,
    }
}

/// The receiver's object.
#[tactic(auto, unfolding(library_rules::specs::Arguments::on_receiver))]
pub fn receiver<'a>(objects: &'a [Object], args: &[Value]) -> Option<&'a Object>
    ensures some { IfSome result (λ o.
        HandsObject (λ h. on_receiver h args.now) objects.now o.now) }
    ensures none { IfNone result (Ends (λ h. on_receiver h args.now) objects.now NoDeed) }
{
    let Some(x) = this(args) else {
        return None;
    };
    match object(objects, x) {
        Some(object) => Some(object),
        None => None,
    }
}

/// The receiver's object, and an int.
#[tactic(auto, unfolding(library_rules::specs::Arguments::on_receiver_int))]
pub fn receiver_int<'a>(objects: &'a [Object], args: &[Value]) -> Option<(&'a Object, i32)>
    ensures some { IfSome result (λ x.
        HandsObjectWith (λ h. on_receiver_int h args.now) objects.now x.0.now x.1) }
    ensures none { IfNone result (Ends (λ h. on_receiver_int h args.now) objects.now NoDeed) }
{
    let Some((x, z)) = this_int(args) else {
        return None;
    };
    match object(objects, x) {
        Some(object) => Some((object, z)),
        None => None,
    }
}

/// The receiver's object, and any value.
#[tactic(auto, unfolding(library_rules::specs::Arguments::on_receiver_value))]
pub fn receiver_value<'a>(objects: &'a [Object], args: &[Value]) -> Option<(&'a Object, Value)>
    ensures some { IfSome result (λ x.
        HandsObjectWith (λ h. on_receiver_value h args.now) objects.now x.0.now x.1) }
    ensures none { IfNone result (Ends (λ h. on_receiver_value h args.now) objects.now NoDeed) }
{
    let Some((x, v)) = this_value(args) else {
        return None;
    };
    match object(objects, x) {
        Some(object) => Some((object, v)),
        None => None,
    }
}

/// The object that a value names.
pub fn value_object(objects: &[Object], v: Value) -> Option<&Object>
    ensures some { IfSome result (λ o. Finds (λ h. value_object h v) objects.now o.now) }
    ensures none { IfNone result (FindsNone (λ h. value_object h v) objects.now) }
{
    match v {
        Value::Ref(x) => match object(objects, x) {
            Some(object) => Some(object),
            None => None,
        },
        Value::Int(_) | Value::Long(_) | Value::Null => None,
    }
}

/// The object that is needed, or what is to be done where there is none.
pub fn needed<'a>(objects: &'a [Object], v: Value) -> Result<&'a Object, Deed>
    ensures ok { IfOk result (λ o. HandsObject (λ h. on_needed h v) objects.now o.now) }
    ensures err { IfErr result (λ d. Ends (λ h. on_needed h v) objects.now (deed_of d)) }
{
    match v {
        Value::Null => Err(Deed::Throws(Fault::NullPointerException)),
        Value::Ref(x) => match object(objects, x) {
            Some(o) => Ok(o),
            None => Err(Deed::NoDeed),
        },
        Value::Int(_) | Value::Long(_) => Err(Deed::NoDeed),
    }
}

/// The object that is needed and its number, or what is to be done where there is none.
pub fn needed_number(objects: &[Object], v: Value) -> Result<(u32, &Object), Deed>
    ensures ok { IfOk result (λ x.
        HandsNumbered (λ h. on_needed_number h v) objects.now x.0 x.1.now) }
    ensures err { IfErr result (λ d. Ends (λ h. on_needed_number h v) objects.now (deed_of d)) }
{
    match v {
        Value::Null => Err(Deed::Throws(Fault::NullPointerException)),
        Value::Ref(x) => match object(objects, x) {
            Some(o) => Ok((x, o)),
            None => Err(Deed::NoDeed),
        },
        Value::Int(_) | Value::Long(_) => Err(Deed::NoDeed),
    }
}

/// The text that is needed, or what is to be done where there is none.
pub fn text<'a>(objects: &'a [Object], v: Value) -> Result<&'a [u16], Deed>
    ensures ok { IfOk result (λ units. HandsSeen (λ h. on_text h v) objects.now units.now) }
    ensures err { IfErr result (λ d. Ends (λ h. on_text h v) objects.now (deed_of d)) }
{
    match needed(objects, v) {
        Ok(o) => Ok(o.text.as_slice()),
        Err(deed) => Err(deed),
    }
}

/// A place that isn't negative.
pub fn place(z: i32) -> Option<u32>
    ensures { result ≡ place_of z }
{
    u32::try_from(z).ok()
}

/// Whether a value is the reference to an object.
pub fn is_ref_to(x: u32, v: Value) -> bool
    ensures { result ≡ is_ref_to x v }
{
    match v {
        Value::Ref(y) => x == y,
        Value::Int(_) | Value::Long(_) | Value::Null => false,
    }
}

//! What each native method of these classes answers.

ghost use Rattle.std.specs.Prelude.{◌≡◌, List, IfOk};
ghost use Rattle.program_rules.specs.Names.{Name as Text};
ghost use Rattle.library_rules.specs.Numbered.{object_meaning, throwable_meaning, optional_meaning, box_meaning, order_meaning, number_meaning, lang_meaning};
ghost use Rattle.lib_core.specs.Answers.{Answers, AnswersAmong, AnswersKnown, AnswersAlone};
ghost use Rattle.lib_core.specs.Known.{IsKnown};
ghost use Rattle.lib_core.specs.View.{objects_of, deed_of};

use crate::{boxes, builder_deed, naming, number, object, optional, order, text_deed, throwable};
use class_model::{Memory, Name};
use jvm_values::Object;
use lib_core::{Deed, Known};
use library_rules::{
    BoxNative, LangNative, NumberNative, ObjectNative, OptionalNative, OrderNative, ThrowableNative,
};
use program_rules::{Making, Value};
use std::alloc::Global;

fn object_deed(
    alloc: Global,
    names: &[Name],
    native: ObjectNative,
    objects: &[Object],
    args: &[Value],
) -> Result<Deed, Memory>
    ensures { IfOk result (λ d.
        AnswersAmong names.now (object_meaning native) objects.now args.now d) }
{
    match native {
        ObjectNative::DoNothing => Ok(object::do_nothing(args)),
        ObjectNative::SameObject => Ok(object::same_object(args)),
        ObjectNative::AllocationNumber => Ok(object::allocation_number(args)),
        ObjectNative::ObjectText => Ok(naming::object_text(alloc, names, objects, args)?),
        ObjectNative::NameOfClass => Ok(object::name_of_class(alloc, objects, args)?),
        ObjectNative::AssertionStatus => Ok(object::assertion_status(args)),
        ObjectNative::EnumInit => Ok(object::enum_init(alloc, args)?),
        ObjectNative::EnumName => Ok(object::enum_name(objects, args)),
        ObjectNative::EnumOrdinal => Ok(object::enum_ordinal(objects, args)),
        ObjectNative::CompareEnum => Ok(object::compare_enum(objects, args)),
        ObjectNative::ClassOf => Ok(naming::object_class(alloc, names, objects, args)?),
        ObjectNative::CompareAny => Ok(object::compare_any_enum(alloc, objects, args)?),
    }
}

fn throwable_deed(
    alloc: Global,
    native: ThrowableNative,
    objects: &[Object],
    args: &[Value],
) -> Result<Deed, Memory>
    ensures { IfOk result (λ d. Answers (throwable_meaning native) objects.now args.now d) }
{
    match native {
        ThrowableNative::Message => Ok(throwable::message(objects, args)),
        ThrowableNative::Cause => Ok(throwable::cause(objects, args)),
        ThrowableNative::SetMessage => Ok(throwable::set_message(alloc, objects, args)?),
        ThrowableNative::SetCause => Ok(throwable::set_cause(alloc, objects, args)?),
        ThrowableNative::SetMessageAndCause => {
            Ok(throwable::set_message_and_cause(alloc, objects, args)?)
        }
    }
}

fn optional_deed(
    alloc: Global,
    native: OptionalNative,
    objects: &[Object],
    args: &[Value],
) -> Result<Deed, Memory>
    ensures { IfOk result (λ d. Answers (optional_meaning native) objects.now args.now d) }
{
    match native {
        OptionalNative::Empty => Ok(optional::empty(alloc, args)),
        OptionalNative::Of => Ok(optional::of(alloc, args)?),
        OptionalNative::OfNullable => Ok(optional::of_nullable(alloc, args)?),
        OptionalNative::IsPresent => Ok(optional::is_present(objects, args)),
        OptionalNative::Value => Ok(optional::held_value(objects, args)),
        OptionalNative::OrElse => Ok(optional::or_else(objects, args)),
    }
}

fn box_deed(
    alloc: Global,
    native: BoxNative,
    objects: &[Object],
    args: &[Value],
) -> Result<Deed, Memory>
    ensures { IfOk result (λ d. Answers (box_meaning native) objects.now args.now d) }
{
    match native {
        BoxNative::OfInt => Ok(boxes::of_int(alloc, args)?),
        BoxNative::OfLong => Ok(boxes::of_long(alloc, args)?),
        BoxNative::OfShort => Ok(boxes::of_short(alloc, args)?),
        BoxNative::OfByte => Ok(boxes::of_byte(alloc, args)?),
        BoxNative::OfChar => Ok(boxes::of_char(alloc, args)?),
        BoxNative::OfBool => Ok(boxes::of_bool(args)),
        BoxNative::IntValue => Ok(boxes::int_value(objects, args)),
        BoxNative::IntAsLong => Ok(boxes::int_as_long(objects, args)),
        BoxNative::LongValue => Ok(boxes::long_value(objects, args)),
        BoxNative::LongAsInt => Ok(boxes::long_as_int(objects, args)),
        BoxNative::LongHash => Ok(boxes::long_hash(objects, args)),
        BoxNative::BoolHash => Ok(boxes::bool_hash(objects, args)),
        BoxNative::IntText => Ok(boxes::int_text(alloc, objects, args)?),
        BoxNative::LongText => Ok(boxes::long_text(alloc, objects, args)?),
        BoxNative::CharText => Ok(boxes::char_text(alloc, objects, args)?),
        BoxNative::BoolText => Ok(boxes::bool_text(alloc, objects, args)?),
    }
}

fn order_deed(known: &Known, native: OrderNative, objects: &[Object], args: &[Value]) -> Deed
    ensures { AnswersKnown known.now (order_meaning native) objects.now args.now result }
{
    match native {
        OrderNative::IntEquals => order::box_equals(known, Making::Integer, objects, args),
        OrderNative::LongEquals => order::long_equals(known, objects, args),
        OrderNative::ShortEquals => order::box_equals(known, Making::Short, objects, args),
        OrderNative::ByteEquals => order::box_equals(known, Making::Byte, objects, args),
        OrderNative::CharEquals => order::box_equals(known, Making::Character, objects, args),
        OrderNative::BoolEquals => order::box_equals(known, Making::Boolean, objects, args),
        OrderNative::CompareBox => order::compare_box(objects, args),
        OrderNative::CompareLongBox => order::compare_long_box(objects, args),
        OrderNative::SubtractBox => order::subtract_box(objects, args),
        OrderNative::CompareInts => order::compare_ints(args),
        OrderNative::CompareLongs => order::compare_longs(args),
    }
}

fn number_deed(native: NumberNative, objects: &[Object], args: &[Value]) -> Deed
    ensures { Answers (number_meaning native) objects.now args.now result }
{
    match native {
        NumberNative::ParseInt => number::parse_int(objects, args),
        NumberNative::IsDigit => number::char_is_digit(args),
        NumberNative::IsLetter => number::char_is_letter(args),
        NumberNative::AbsInt => number::abs_int(args),
        NumberNative::AbsLong => number::abs_long(args),
        NumberNative::MaxInt => number::max_int(args),
        NumberNative::MaxLong => number::max_long(args),
        NumberNative::MinInt => number::min_int(args),
        NumberNative::MinLong => number::min_long(args),
        NumberNative::FloorMod => number::floor_mod(args),
    }
}

/// What a native method of `java/lang`, or of `java/util/Optional`, wants done with these
/// arguments, the receiver first, among classes of these names.
pub fn lang_deed(
    alloc: Global,
    names: &[Name],
    known: &Known,
    native: LangNative,
    objects: &[Object],
    args: &[Value],
) -> Result<Deed, Memory>
    ensures { IfOk result (λ d. IsKnown names.now known.now →
        AnswersAmong names.now (lang_meaning native) objects.now args.now d) }
{
    match native {
        LangNative::Object(native) => Ok(object_deed(alloc, names, native, objects, args)?),
        LangNative::Throwable(native) => Ok(throwable_deed(alloc, native, objects, args)?),
        LangNative::Optional(native) => Ok(optional_deed(alloc, native, objects, args)?),
        LangNative::Text(native) => Ok(text_deed(alloc, known, native, objects, args)?),
        LangNative::Builder(native) => Ok(builder_deed(alloc, native, objects, args)?),
        LangNative::Box(native) => Ok(box_deed(alloc, native, objects, args)?),
        LangNative::Order(native) => Ok(order_deed(known, native, objects, args)),
        LangNative::Number(native) => Ok(number_deed(native, objects, args)),
    }
}

//! What each native method of texts answers.

ghost use Rattle.std.specs.Prelude.{◌≡◌, IfOk};
ghost use Rattle.library_rules.specs.Numbered.{text_meaning, builder_meaning};
ghost use Rattle.lib_core.specs.Answers.{Answers, AnswersKnown};

use crate::{builder, parts, text};
use class_model::Memory;
use jvm_values::Object;
use lib_core::{Deed, Known};
use library_rules::{BuilderNative, TextNative};
use program_rules::Value;
use std::alloc::Global;

/// What a native method of `java/lang/String` wants done with these arguments, the receiver first.
pub fn text_deed(
    alloc: Global,
    known: &Known,
    native: TextNative,
    objects: &[Object],
    args: &[Value],
) -> Result<Deed, Memory>
    ensures { IfOk result (λ d.
        AnswersKnown known.now (text_meaning native) objects.now args.now d) }
{
    match native {
        TextNative::Length => Ok(text::length(objects, args)),
        TextNative::IsEmpty => Ok(text::is_empty(objects, args)),
        TextNative::CharAt => Ok(text::char_at(objects, args)),
        TextNative::Equals => Ok(text::equals(known, objects, args)),
        TextNative::Hash => Ok(text::hash(objects, args)),
        TextNative::Compare => Ok(text::compare(objects, args)),
        TextNative::CompareAny => Ok(text::compare_any(known, objects, args)),
        TextNative::Concat => Ok(parts::concat(alloc, objects, args)?),
        TextNative::SubstringFrom => Ok(parts::substring_from(alloc, objects, args)?),
        TextNative::Substring => Ok(parts::substring(alloc, objects, args)?),
        TextNative::IndexOfChar => Ok(parts::index_of_char(alloc, objects, args)?),
        TextNative::IndexOfText => Ok(parts::index_of_text(objects, args)),
        TextNative::StartsWith => Ok(parts::text_starts_with(objects, args)),
        TextNative::EndsWith => Ok(parts::text_ends_with(objects, args)),
        TextNative::Itself => Ok(text::itself(args)),
        TextNative::OfInt => Ok(text::of_int(alloc, args)?),
        TextNative::OfLong => Ok(text::of_long(alloc, args)?),
        TextNative::OfChar => Ok(text::of_char(alloc, args)?),
        TextNative::OfBool => Ok(text::of_bool(alloc, args)?),
        TextNative::Chars => Ok(text::chars(objects, args)?),
    }
}

/// What one of `java/lang/StringBuilder` wants done. `length`, `charAt` and an `<init>` that keeps
/// nothing stand elsewhere.
pub fn builder_deed(
    alloc: Global,
    native: BuilderNative,
    objects: &[Object],
    args: &[Value],
) -> Result<Deed, Memory>
    ensures { IfOk result (λ d. Answers (builder_meaning native) objects.now args.now d) }
{
    match native {
        BuilderNative::OfCapacity => Ok(builder::of_capacity(args)),
        BuilderNative::OfText => Ok(builder::of_text(alloc, objects, args)?),
        BuilderNative::AppendText => Ok(builder::append_text(alloc, objects, args)?),
        BuilderNative::AppendInt => Ok(builder::append_int(alloc, args)?),
        BuilderNative::AppendLong => Ok(builder::append_long(alloc, args)?),
        BuilderNative::AppendChar => Ok(builder::append_char(alloc, args)?),
        BuilderNative::AppendBool => Ok(builder::append_bool(alloc, args)?),
        BuilderNative::ToText => Ok(builder::to_text(alloc, objects, args)?),
    }
}

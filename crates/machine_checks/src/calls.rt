//! Calls of native methods, each with the contract of the real one: what wrong bodies are tried on.

ghost use Rattle.std.specs.Prelude.{IfOk};
ghost use Rattle.program_rules.specs.Natives.{append_text, integer_value_of};
ghost use Rattle.library_rules.specs.Texts.{substring, text_hash, compare_any_text};
ghost use Rattle.library_rules.specs.Numbers.{parse_int};
ghost use Rattle.library_rules.specs.Objects.{cause};
ghost use Rattle.lib_core.specs.Answers.{Answers, AnswersAmong, AnswersKnown};
ghost use Rattle.lib_core.specs.Known.{IsKnown};

use class_model::{Memory, Name};
use jvm_values::Object;
use lib_core::{Deed, Known};
use lib_lang::{builder_deed, lang_deed, text_deed};
use library_rules::{
    BoxNative, BuilderNative, LangNative, NumberNative, TextNative, ThrowableNative,
};
use program_rules::Value;
use std::alloc::Global;

/// `String.substring(II)`
pub fn substring(
    alloc: Global,
    known: &Known,
    objects: &[Object],
    args: &[Value],
) -> Result<Deed, Memory>
    ensures { IfOk result (λ d. AnswersKnown known.now substring objects.now args.now d) }
{
    let part = text_deed(alloc, known, TextNative::Substring, objects, args)?;
    Ok(part)
}

/// `String.hashCode()`
pub fn text_hash(
    alloc: Global,
    known: &Known,
    objects: &[Object],
    args: &[Value],
) -> Result<Deed, Memory>
    ensures { IfOk result (λ d. AnswersKnown known.now text_hash objects.now args.now d) }
{
    let hash = text_deed(alloc, known, TextNative::Hash, objects, args)?;
    Ok(hash)
}

/// `String.compareTo(Object)`
pub fn compare_any(
    alloc: Global,
    known: &Known,
    objects: &[Object],
    args: &[Value],
) -> Result<Deed, Memory>
    ensures { IfOk result (λ d. AnswersKnown known.now compare_any_text objects.now args.now d) }
{
    let order = text_deed(alloc, known, TextNative::CompareAny, objects, args)?;
    Ok(order)
}

/// `StringBuilder.append(String)`
pub fn append_text(alloc: Global, objects: &[Object], args: &[Value]) -> Result<Deed, Memory>
    ensures { IfOk result (λ d. Answers append_text objects.now args.now d) }
{
    let appended = builder_deed(alloc, BuilderNative::AppendText, objects, args)?;
    Ok(appended)
}

/// `Integer.valueOf(I)`
pub fn integer_value_of(
    alloc: Global,
    names: &[Name],
    known: &Known,
    objects: &[Object],
    args: &[Value],
) -> Result<Deed, Memory>
    ensures { IfOk result (λ d. IsKnown names.now known.now →
        AnswersAmong names.now integer_value_of objects.now args.now d) }
{
    let native = LangNative::Box(BoxNative::OfInt);
    let boxed = lang_deed(alloc, names, known, native, objects, args)?;
    Ok(boxed)
}

/// `Integer.parseInt(String)`
pub fn parse_int(
    alloc: Global,
    names: &[Name],
    known: &Known,
    objects: &[Object],
    args: &[Value],
) -> Result<Deed, Memory>
    ensures { IfOk result (λ d. IsKnown names.now known.now →
        AnswersAmong names.now parse_int objects.now args.now d) }
{
    let native = LangNative::Number(NumberNative::ParseInt);
    let number = lang_deed(alloc, names, known, native, objects, args)?;
    Ok(number)
}

/// `Throwable.getCause()`
pub fn cause(
    alloc: Global,
    names: &[Name],
    known: &Known,
    objects: &[Object],
    args: &[Value],
) -> Result<Deed, Memory>
    ensures { IfOk result (λ d. IsKnown names.now known.now →
        AnswersAmong names.now cause objects.now args.now d) }
{
    let native = LangNative::Throwable(ThrowableNative::Cause);
    let cause = lang_deed(alloc, names, known, native, objects, args)?;
    Ok(cause)
}

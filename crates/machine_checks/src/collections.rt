//! Calls of native methods of collections, each with the contract of the real one: what wrong
//! bodies are tried on.

ghost use Rattle.std.specs.Prelude.{IfOk};
ghost use Rattle.library_rules.specs.Collections as def;
ghost use Rattle.lib_core.specs.Answers.{Answers, AnswersAlone};

use class_model::Memory;
use jvm_values::Object;
use lib_core::Deed;
use lib_util::util_deed;
use library_rules::{EntryNative, IteratorNative, UtilNative};
use program_rules::Value;
use std::alloc::Global;

/// `$cut(I)` of `mt/Hashed`
pub fn cut_entry(alloc: Global, objects: &[Object], args: &[Value]) -> Result<Deed, Memory>
    ensures { IfOk result (λ d. Answers def.cut_entry objects.now args.now d) }
{
    let native = UtilNative::Entry(EntryNative::Cut);
    let cut = util_deed(alloc, native, objects, args)?;
    Ok(cut)
}

// The real one, whose answer is the same for all objects.
fn iterator_of(alloc: Global, objects: &[Object], args: &[Value]) -> Result<Deed, Memory>
    ensures { IfOk result (λ d. AnswersAlone def.list_iterator args.now d) }
{
    let native = UtilNative::Iterator(IteratorNative::OfList);
    let deed = util_deed(alloc, native, objects, args)?;
    Ok(deed)
}

/// `ArrayList.iterator()`
pub fn list_iterator(alloc: Global, objects: &[Object], args: &[Value]) -> Result<Deed, Memory>
    ensures { IfOk result (λ d. AnswersAlone def.list_iterator args.now d) }
{
    let iterator = iterator_of(alloc, objects, args)?;
    Ok(iterator)
}

//! What each native method of these classes answers.

ghost use Rattle.std.specs.Prelude.{◌≡◌, IfOk};
ghost use Rattle.library_rules.specs.Numbered.{list_meaning, entry_meaning, iterator_meaning, util_meaning};
ghost use Rattle.lib_core.specs.Answers.{Answers, AnswersAlone};

use crate::{entries, iterators, list, making};
use class_model::Memory;
use jvm_values::Object;
use lib_core::Deed;
use library_rules::{EntryNative, IteratorNative, ListNative, UtilNative};
use program_rules::Value;
use std::alloc::Global;

fn list_deed(
    alloc: Global,
    native: ListNative,
    objects: &[Object],
    args: &[Value],
) -> Result<Deed, Memory>
    ensures { IfOk result (λ d. Answers (list_meaning native) objects.now args.now d) }
{
    match native {
        ListNative::OfCapacity => Ok(list::of_capacity(args)),
        ListNative::Size => Ok(list::size(objects, args)),
        ListNative::IsEmpty => Ok(list::is_empty(objects, args)),
        ListNative::Clear => Ok(list::clear(alloc, args)),
        ListNative::Get => Ok(list::get(objects, args)),
        ListNative::Set => Ok(list::set(objects, args)),
        ListNative::Add => Ok(list::add(alloc, args)?),
        ListNative::Insert => Ok(list::insert(objects, args)),
        ListNative::Remove => Ok(list::remove(objects, args)),
        ListNative::Unsupported => Ok(list::unsupported(args)),
    }
}

fn entry_deed(
    alloc: Global,
    native: EntryNative,
    objects: &[Object],
    args: &[Value],
) -> Result<Deed, Memory>
    ensures { IfOk result (λ d. Answers (entry_meaning native) objects.now args.now d) }
{
    match native {
        EntryNative::Count => Ok(entries::count(objects, args)),
        EntryNative::Hash => Ok(entries::hash(objects, args)),
        EntryNative::Key => Ok(entries::key(objects, args)),
        EntryNative::Value => Ok(entries::value(objects, args)),
        EntryNative::SetValue => Ok(entries::set_value(objects, args)),
        EntryNative::Add => Ok(entries::add(alloc, args)?),
        EntryNative::Cut => Ok(entries::cut(objects, args)),
        EntryNative::KeySet => Ok(making::key_set(alloc, objects, args)?),
        EntryNative::ValueList => Ok(making::value_list(alloc, objects, args)?),
    }
}

fn iterator_deed(
    alloc: Global,
    native: IteratorNative,
    objects: &[Object],
    args: &[Value],
) -> Result<Deed, Memory>
    ensures { IfOk result (λ d. Answers (iterator_meaning native) objects.now args.now d) }
{
    match native {
        IteratorNative::OfList => Ok(iterators::of_list(alloc, args)?),
        IteratorNative::OfSet => Ok(iterators::of_set(alloc, args)?),
        IteratorNative::HasNext => Ok(iterators::has_next(objects, args)),
        IteratorNative::Next => Ok(iterators::next(alloc, objects, args)?),
        IteratorNative::EmptyList => Ok(making::empty_list(alloc, args)),
        IteratorNative::EmptySet => Ok(making::empty_set(alloc, args)),
        IteratorNative::AsList => Ok(making::as_list(alloc, objects, args)?),
    }
}

/// What a native method of `java/util` or of `mt` wants done with these arguments, the receiver
/// first.
pub fn util_deed(
    alloc: Global,
    native: UtilNative,
    objects: &[Object],
    args: &[Value],
) -> Result<Deed, Memory>
    ensures { IfOk result (λ d. Answers (util_meaning native) objects.now args.now d) }
{
    match native {
        UtilNative::List(native) => Ok(list_deed(alloc, native, objects, args)?),
        UtilNative::Entry(native) => Ok(entry_deed(alloc, native, objects, args)?),
        UtilNative::Iterator(native) => Ok(iterator_deed(alloc, native, objects, args)?),
    }
}

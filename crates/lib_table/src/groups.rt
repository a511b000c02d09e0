//! The library by groups of classes, and whole.

ghost use Rattle.std.specs.Prelude.{◌≡◌, ◌++◌, map, IfOk};
ghost use Rattle.lib_table.specs.Interfaces as interface_def;
ghost use Rattle.lib_table.specs.LangClasses as lang_def;
ghost use Rattle.lib_table.specs.Exceptions as exception_def;
ghost use Rattle.lib_table.specs.Collected as util_def;
ghost use Rattle.lib_table.specs.Library.{interfaces, lang_classes, exceptions, library, class_meant, library_meant};

use crate::building::classes_of;
use crate::exception_rows::{ERRORS, LIBRARY_EXCEPTIONS, MACHINE_EXCEPTIONS, THROWABLES};
use crate::interface_rows::{BASIC_INTERFACES, COLLECTION_INTERFACES};
use crate::lang_rows::{NUMBERS, OBJECTS, TEXTS};
use crate::util_rows::{ASSERTIONS, HASHES, LISTS, UTILITIES};
use class_link::LibClass;
use class_model::{Memory, Seq};
use std::alloc::Global;

fn basic_interfaces(alloc: Global) -> Result<Seq<LibClass>, Memory>
    ensures { IfOk result (λ cs. cs ≡ interface_def.basic_interfaces) }
{
    Ok(classes_of(alloc, &BASIC_INTERFACES)?)
}

fn collection_interfaces(alloc: Global) -> Result<Seq<LibClass>, Memory>
    ensures { IfOk result (λ cs. cs ≡ interface_def.collection_interfaces) }
{
    Ok(classes_of(alloc, &COLLECTION_INTERFACES)?)
}

fn objects(alloc: Global) -> Result<Seq<LibClass>, Memory>
    ensures { IfOk result (λ cs. cs ≡ lang_def.objects) }
{
    Ok(classes_of(alloc, &OBJECTS)?)
}

fn texts(alloc: Global) -> Result<Seq<LibClass>, Memory>
    ensures { IfOk result (λ cs. cs ≡ lang_def.texts) }
{
    Ok(classes_of(alloc, &TEXTS)?)
}

fn numbers(alloc: Global) -> Result<Seq<LibClass>, Memory>
    ensures { IfOk result (λ cs. cs ≡ lang_def.numbers) }
{
    Ok(classes_of(alloc, &NUMBERS)?)
}

fn throwables(alloc: Global) -> Result<Seq<LibClass>, Memory>
    ensures { IfOk result (λ cs. cs ≡ exception_def.throwables) }
{
    Ok(classes_of(alloc, &THROWABLES)?)
}

fn errors(alloc: Global) -> Result<Seq<LibClass>, Memory>
    ensures { IfOk result (λ cs. cs ≡ exception_def.errors) }
{
    Ok(classes_of(alloc, &ERRORS)?)
}

fn machine_exceptions(alloc: Global) -> Result<Seq<LibClass>, Memory>
    ensures { IfOk result (λ cs. cs ≡ exception_def.machine_exceptions) }
{
    Ok(classes_of(alloc, &MACHINE_EXCEPTIONS)?)
}

fn library_exceptions(alloc: Global) -> Result<Seq<LibClass>, Memory>
    ensures { IfOk result (λ cs. cs ≡ exception_def.library_exceptions) }
{
    Ok(classes_of(alloc, &LIBRARY_EXCEPTIONS)?)
}

fn lists(alloc: Global) -> Result<Seq<LibClass>, Memory>
    ensures { IfOk result (λ cs. cs ≡ util_def.list_classes) }
{
    Ok(classes_of(alloc, &LISTS)?)
}

fn hashes(alloc: Global) -> Result<Seq<LibClass>, Memory>
    ensures { IfOk result (λ cs. cs ≡ util_def.hash_classes) }
{
    Ok(classes_of(alloc, &HASHES)?)
}

fn utilities(alloc: Global) -> Result<Seq<LibClass>, Memory>
    ensures { IfOk result (λ cs. cs ≡ util_def.utility_classes) }
{
    Ok(classes_of(alloc, &UTILITIES)?)
}

fn assertions(alloc: Global) -> Result<Seq<LibClass>, Memory>
    ensures { IfOk result (λ cs. cs ≡ util_def.assertions) }
{
    Ok(classes_of(alloc, &ASSERTIONS)?)
}

// ---- whole

fn joined(front: Seq<LibClass>, back: Seq<LibClass>) -> Result<Seq<LibClass>, Memory>
    ensures { IfOk result (λ cs. cs ≡ front ++ back) }
{
    let mut front = front.into_vec();
    let mut back = back.into_vec();
    front.append(&mut back)?;
    Ok(Seq::from_vec(front))
}

fn interfaces(alloc: Global) -> Result<Seq<LibClass>, Memory>
    ensures { IfOk result (λ cs. cs ≡ interfaces) }
{
    let basic = basic_interfaces(alloc)?;
    let of_collections = collection_interfaces(alloc)?;
    Ok(joined(basic, of_collections)?)
}

fn lang_classes(alloc: Global) -> Result<Seq<LibClass>, Memory>
    ensures { IfOk result (λ cs. cs ≡ lang_classes) }
{
    let objects = objects(alloc)?;
    let texts = texts(alloc)?;
    let front = joined(objects, texts)?;
    let numbers = numbers(alloc)?;
    Ok(joined(front, numbers)?)
}

fn exceptions(alloc: Global) -> Result<Seq<LibClass>, Memory>
    ensures { IfOk result (λ cs. cs ≡ exceptions) }
{
    let throwables = throwables(alloc)?;
    let errors = errors(alloc)?;
    let front = joined(throwables, errors)?;
    let of_machine = machine_exceptions(alloc)?;
    let of_library = library_exceptions(alloc)?;
    let back = joined(of_machine, of_library)?;
    Ok(joined(front, back)?)
}

#[tactic(auto, unfolding(crate::specs::Collected::collections))]
fn collections(alloc: Global) -> Result<Seq<LibClass>, Memory>
    ensures { IfOk result (λ cs. cs ≡ util_def.collections) }
{
    let lists = lists(alloc)?;
    let hashes = hashes(alloc)?;
    let utilities = utilities(alloc)?;
    let back = joined(hashes, utilities)?;
    Ok(joined(lists, back)?)
}

// The classes of the library, group by group.
fn joined_groups(alloc: Global) -> Result<Seq<LibClass>, Memory>
    ensures { IfOk result (λ cs. cs ≡ library) }
{
    let interfaces = interfaces(alloc)?;
    let lang_classes = lang_classes(alloc)?;
    let front = joined(interfaces, lang_classes)?;
    let exceptions = exceptions(alloc)?;
    let collections = collections(alloc)?;
    let assertions = assertions(alloc)?;
    let collected = joined(collections, assertions)?;
    let back = joined(exceptions, collected)?;
    Ok(joined(front, back)?)
}

/// The classes of the library, for `Program::build`.
#[tactic(auto, unfolding(crate::specs::Library::library_meant))]
pub fn classes(alloc: Global) -> Result<Seq<LibClass>, Memory>
    ensures table { IfOk result (λ cs. cs ≡ library) }
    ensures meant { IfOk result (λ cs. map class_meant cs ≡ library_meant) }
{
    let classes = joined_groups(alloc)?;
    Ok(classes)
}

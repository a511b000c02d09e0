//! Whether the supers that a program's classes name are as they have to be, and their numbers.
#![tactic(auto, unfolding(class_link::specs::View::linked_of))]

ghost use Rattle.std.specs.Prelude.{◌≡◌, ◌<◌, ◌^◌, ◌++◌, ◌↔◌, length, slice_get, Some, map, is_none, not, ◌&&◌, IfOk, OnOk, IsTrue};
ghost use Rattle.std.specs.List.{list_any};
ghost use Rattle.std.specs.Option.{option_map, option_copied, option_to_list};
ghost use Rattle.program_rules.specs.Names.{same, object_name};
ghost use Rattle.class_link.specs.Info.{class_of};
ghost use Rattle.class_order.specs.Above.{AreFalling, IsOver};
ghost use Rattle.class_order.specs.Supers.{is_no_superclass, is_no_interface, is_wrong_superclass};
ghost use Rattle.class_table.specs.Adding.{shared};
ghost use Rattle.class_table.specs.Numbers.{IsNumbering};
ghost use Rattle.class_table.specs.Supers.{misses, names_wrong, numbers_known, IsLinked, AreLinks};
ghost use Rattle.class_table.specs.Table.{number_of, look};

use class_link::{ClassInfo, Shared};
use class_model::flags::{is_final, is_interface};
use class_model::names::is_text;
use class_model::{Memory, Name};
use class_order::{Above, Links, is_over};
use std::alloc::Global;
use std::collections::BTreeMap;
use std::sync::Arc;

/// What a program's classes name as their supers, and what stands above each, by number.
#[derive(Drop)]
pub struct Supers {
    pub links: Vec<Links, Global>,
    pub above: Vec<Above, Global>,
}

/// The supers of a class.
pub fn links_at(supers: &Supers, class: u32) -> &Links
    requires { class < length supers.now.links.items }
    ensures { slice_get supers.now.links.items class ≡ Some result.now }
{
    &supers.links[class as usize]
}

/// Whether a class is another one or stands below it.
pub fn stands_below(supers: &Supers, class: u32, over: u32) -> bool
    requires { AreFalling supers.now.above.items }
    ensures { IsTrue result ↔ IsOver supers.now.above.items class over }
{
    is_over(&supers.above, class, over)
}

fn is_object(name: &Name) -> bool
    ensures { result ≡ same name.now object_name }
{
    is_text(name.as_slice(), b"java/lang/Object")
}

// The class of a name, if there is one.
fn class_named<'a>(
    infos: &'a [Arc<ClassInfo, Global>],
    numbers: &BTreeMap<Name, u32>,
    name: &Name,
) -> Option<&'a ClassInfo>
    requires { IsNumbering numbers.now (shared infos.now) }
    ensures { option_map class_of (option_copied result) ≡ look (shared infos.now) name.now }
{
    let number = *numbers.get(name)?;
    Some(infos.get(number as usize)?)
}

// The access flags of the class of a name, if there is one.
fn flags_of(
    infos: &[Arc<ClassInfo, Global>],
    numbers: &BTreeMap<Name, u32>,
    name: &Name,
) -> Option<u16>
    requires { IsNumbering numbers.now (shared infos.now) }
    ensures { result ≡ option_map (λ c. c.flags) (look (shared infos.now) name.now) }
{
    Some(class_named(infos, numbers, name)?.linked().flags)
}

// ---- a super that is missing

fn is_absent(infos: &[Arc<ClassInfo, Global>], numbers: &BTreeMap<Name, u32>, name: &Name) -> bool
    requires { IsNumbering numbers.now (shared infos.now) }
    ensures { result ≡ is_none (look (shared infos.now) name.now) }
{
    flags_of(infos, numbers, name).is_none()
}

fn is_any_absent(
    infos: &[Arc<ClassInfo, Global>],
    numbers: &BTreeMap<Name, u32>,
    names: &[Shared<Name>],
) -> bool
    requires { IsNumbering numbers.now (shared infos.now) }
    ensures { result ≡ list_any (λ m. is_none (look (shared infos.now) m)) names.now }
{
    for name in names {
        if is_absent(infos, numbers, name) {
            return true;
        }
    }
    false
}

/// Whether a class misses its superclass or an interface.
pub fn misses(
    infos: &[Arc<ClassInfo, Global>],
    numbers: &BTreeMap<Name, u32>,
    info: &ClassInfo,
) -> bool
    requires { IsNumbering numbers.now (shared infos.now) }
    ensures { result ≡ misses (shared infos.now) info.now }
{
    let linked = info.linked();
    match &linked.parent {
        Some(parent) => {
            is_absent(infos, numbers, parent)
                || is_any_absent(infos, numbers, linked.interfaces.as_slice())
        }
        None => {
            !is_object(info.name()) || is_any_absent(infos, numbers, linked.interfaces.as_slice())
        }
    }
}

// ---- supers by number

fn push_known(known: &mut Vec<u32, Global>, number: Option<u32>) -> Result<(), Memory>
    ensures { OnOk result (known.new.items ≡ known.old.items ++ option_to_list number) }
{
    if let Some(number) = number {
        known.push(number)?;
    }
    Ok(())
}

fn number_of(
    infos: &[Arc<ClassInfo, Global>],
    numbers: &BTreeMap<Name, u32>,
    name: &Name,
) -> Option<u32>
    requires { IsNumbering numbers.now (shared infos.now) }
    ensures { result ≡ number_of (shared infos.now) name.now }
{
    numbers.get(name).copied()
}

fn numbers_known(
    alloc: Global,
    infos: &[Arc<ClassInfo, Global>],
    numbers: &BTreeMap<Name, u32>,
    names: &[Shared<Name>],
) -> Result<Vec<u32, Global>, Memory>
    requires { IsNumbering numbers.now (shared infos.now) }
    ensures { IfOk result (λ known. known.items ≡ numbers_known (shared infos.now) names.now) }
{
    let mut known = Vec::with_capacity(alloc, names.len())?;
    for name in names {
        push_known(&mut known, number_of(infos, numbers, name))?;
    }
    Ok(known)
}

// What a class names as its supers, by number.
fn links_of(
    alloc: Global,
    infos: &[Arc<ClassInfo, Global>],
    numbers: &BTreeMap<Name, u32>,
    info: &ClassInfo,
) -> Result<Links, Memory>
    requires { IsNumbering numbers.now (shared infos.now) }
    ensures { IfOk result (IsLinked (shared infos.now) info.now) }
{
    let linked = info.linked();
    let parent = match &linked.parent {
        Some(parent) => number_of(infos, numbers, parent),
        None => None,
    };
    let interfaces = numbers_known(alloc, infos, numbers, linked.interfaces.as_slice())?;
    Ok(Links { parent, interfaces })
}

/// What each class names as its supers, by number.
pub fn all_links(
    alloc: Global,
    infos: &[Arc<ClassInfo, Global>],
    numbers: &BTreeMap<Name, u32>,
) -> Result<Vec<Links, Global>, Memory>
    requires { IsNumbering numbers.now (shared infos.now) }
    ensures { IfOk result (λ g. AreLinks (shared infos.now) g.items) }
{
    let mut all = Vec::with_capacity(alloc, infos.len())?;
    for info in infos {
        all.push(links_of(alloc, infos, numbers, info)?)?;
    }
    Ok(all)
}

// ---- a super of a wrong kind

fn is_no_superclass(
    infos: &[Arc<ClassInfo, Global>],
    numbers: &BTreeMap<Name, u32>,
    name: &Name,
) -> bool
    requires { IsNumbering numbers.now (shared infos.now) }
    ensures { result ≡ is_no_superclass (look (shared infos.now) name.now) }
{
    match class_named(infos, numbers, name) {
        Some(info) => {
            let flags = info.linked().flags;
            is_final(flags) || is_interface(flags)
        }
        None => false,
    }
}

fn is_no_interface(
    infos: &[Arc<ClassInfo, Global>],
    numbers: &BTreeMap<Name, u32>,
    name: &Name,
) -> bool
    requires { IsNumbering numbers.now (shared infos.now) }
    ensures { result ≡ is_no_interface (look (shared infos.now) name.now) }
{
    match class_named(infos, numbers, name) {
        Some(info) => !is_interface(info.linked().flags),
        None => false,
    }
}

fn is_any_no_interface(
    infos: &[Arc<ClassInfo, Global>],
    numbers: &BTreeMap<Name, u32>,
    names: &[Shared<Name>],
) -> bool
    requires { IsNumbering numbers.now (shared infos.now) }
    ensures { result ≡ list_any (λ m. is_no_interface (look (shared infos.now) m)) names.now }
{
    for name in names {
        if is_no_interface(infos, numbers, name) {
            return true;
        }
    }
    false
}

// Whether a class can't have this superclass.
fn is_wrong_superclass(
    infos: &[Arc<ClassInfo, Global>],
    numbers: &BTreeMap<Name, u32>,
    info: &ClassInfo,
    name: &Name,
) -> bool
    requires { IsNumbering numbers.now (shared infos.now) }
    ensures { result ≡ is_wrong_superclass (look (shared infos.now)) (class_of info.now) name.now }
{
    is_no_superclass(infos, numbers, name)
        || (is_interface(info.linked().flags) && !is_object(name))
}

/// Whether a class names a super of a wrong kind.
pub fn names_wrong(
    infos: &[Arc<ClassInfo, Global>],
    numbers: &BTreeMap<Name, u32>,
    info: &ClassInfo,
) -> bool
    requires { IsNumbering numbers.now (shared infos.now) }
    ensures { result ≡ names_wrong (shared infos.now) info.now }
{
    let linked = info.linked();
    match &linked.parent {
        Some(parent) => {
            is_wrong_superclass(infos, numbers, info, parent)
                || is_any_no_interface(infos, numbers, linked.interfaces.as_slice())
        }
        None => is_any_no_interface(infos, numbers, linked.interfaces.as_slice()),
    }
}

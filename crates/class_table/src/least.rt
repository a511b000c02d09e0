//! The class with the least name among those that are what none may be.

ghost use Rattle.std.specs.Prelude.{◌≡◌, ◌<◌, ◌^◌, length, IfOk, slice_get, Some};
ghost use Rattle.class_table.specs.Adding.{shared};
ghost use Rattle.class_table.specs.Flaws.{IsLeastUpTo, IsLeastFlawed};
ghost use Rattle.class_table.specs.Least.{lesser_at, considered};
ghost use Rattle.class_table.specs.Numbers.{IsNumbering};
ghost use Rattle.class_table.specs.Table.{names};

use crate::flaws::{Flaw, has_flaw};
use class_link::ClassInfo;
use class_model::{Bytes, Memory, Name, write_text};
use class_order::Standing;
use std::alloc::Global;
use std::collections::BTreeMap;
use std::sync::Arc;

/// A class by its place, and the bytes of its name.
#[derive(Drop)]
pub struct Least {
    pub at: usize,
    pub bytes: Bytes,
}

// The lesser of a class and this one.
fn lesser_at(alloc: Global, least: Option<Least>, at: usize, name: &Name) -> Result<Least, Memory>
    ensures { IfOk result (λ l. l ≡ lesser_at least at name.now) }
{
    let bytes = write_text(alloc, name)?;
    let Some(least) = least else {
        return Ok(Least { at, bytes });
    };
    if bytes.cmp(&least.bytes).is_lt() {
        return Ok(Least { at, bytes });
    }
    Ok(least)
}

// The lesser of a class and this one, if this one is marked.
fn consider(
    alloc: Global,
    is_marked: bool,
    least: Option<Least>,
    at: usize,
    name: &Name,
) -> Result<Option<Least>, Memory>
    ensures { IfOk result (λ l. l ≡ considered is_marked least at name.now) }
{
    if is_marked {
        return Ok(Some(lesser_at(alloc, least, at, name)?));
    }
    Ok(least)
}

// The least of the classes that are what none may be.
fn least_at(
    alloc: Global,
    infos: &[Arc<ClassInfo, Global>],
    numbers: &BTreeMap<Name, u32>,
    found: &[Standing],
    flaw: Flaw,
) -> Result<Option<Least>, Memory>
    requires numbers { IsNumbering numbers.now (shared infos.now) }
    requires few { length infos.now < 2 ^ 32 }
    requires found { length found.now ≡ length infos.now }
    ensures { IfOk result (IsLeastUpTo flaw (shared infos.now) found.now (length infos.now)) }
{
    let mut least = None;
    for (i, info) in infos.iter().enumerate() {
        let is_marked = has_flaw(infos, numbers, found, flaw, i, info);
        least = consider(alloc, is_marked, least, i, info.name())?;
    }
    Ok(least)
}

/// The least name of the classes that are what none may be, in the order of their bytes. It takes
/// time by the lengths of these names.
pub fn least_with(
    alloc: Global,
    infos: &[Arc<ClassInfo, Global>],
    numbers: &BTreeMap<Name, u32>,
    found: &[Standing],
    flaw: Flaw,
) -> Result<Option<Name>, Memory>
    requires numbers { IsNumbering numbers.now (shared infos.now) }
    requires few { length infos.now < 2 ^ 32 }
    requires found { length found.now ≡ length infos.now }
    ensures { IfOk result (IsLeastFlawed flaw (shared infos.now) found.now) }
{
    let Some(least) = least_at(alloc, infos, numbers, found, flaw)? else {
        return Ok(None);
    };
    Ok(Some(name_at(infos, least.at)?))
}

fn name_at(infos: &[Arc<ClassInfo, Global>], at: usize) -> Result<Name, Memory>
    requires { at < length infos.now }
    ensures { IfOk result (λ name. slice_get (names (shared infos.now)) at ≡ Some name) }
{
    Ok(infos[at].name().copy()?)
}

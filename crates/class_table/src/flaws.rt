//! Which classes have a fault that a program's classes may not have.

ghost use Rattle.std.specs.Prelude.{◌≡◌, ◌<◌, ◌^◌, map, length, slice_get, Some};
ghost use Rattle.std.specs.BTreeMap.{get};
ghost use Rattle.std.specs.Cmp.Lexicographic.{slice_cmp};
ghost use Rattle.std.specs.Ordering.{nat_cmp};
ghost use Rattle.class_table.specs.Adding.{shared};
ghost use Rattle.class_table.specs.Flaws.{marks_of};
ghost use Rattle.class_table.specs.Numbers.{IsNumbering, is_place};
ghost use Rattle.class_table.specs.Supers.{is_cyclic};

use crate::supers::{misses, names_wrong};
use class_link::ClassInfo;
use class_model::Name;
use class_order::Standing;
use std::alloc::Global;
use std::collections::BTreeMap;
use std::sync::Arc;

/// What a class of a program may not be.
#[derive(Clone, Copy)]
pub enum Flaw {
    /// One before it has its name.
    RepeatsName,
    /// Its superclass or an interface is missing.
    MissesSuper,
    /// It stands above itself.
    StandsAboveItself,
    /// Its superclass or an interface is of a wrong kind.
    NamesWrongKind,
}

// Whether this is the place of a name.
fn is_place(numbers: &BTreeMap<Name, u32>, name: &Name, i: u32) -> bool
    ensures { result ≡ is_place (get (slice_cmp nat_cmp) numbers.now name.now) i }
{
    match numbers.get(name) {
        Some(number) => *number == i,
        None => false,
    }
}

fn is_cyclic(standing: Standing) -> bool
    ensures { result ≡ is_cyclic standing }
{
    match standing {
        Standing::Cyclic => true,
        _ => false,
    }
}

// Whether the class at a place was found to stand above itself.
fn is_cyclic_at(found: &[Standing], at: usize) -> bool
    requires { at < length found.now }
    ensures { slice_get (map is_cyclic found.now) at ≡ Some result }
{
    is_cyclic(found[at])
}

/// Whether the class at a place is what it may not be.
pub fn has_flaw(
    infos: &[Arc<ClassInfo, Global>],
    numbers: &BTreeMap<Name, u32>,
    found: &[Standing],
    flaw: Flaw,
    at: usize,
    info: &ClassInfo,
) -> bool
    requires numbers { IsNumbering numbers.now (shared infos.now) }
    requires few { at < 2 ^ 32 }
    requires class { slice_get (shared infos.now) at ≡ Some info.now }
    requires found { at < length found.now }
    ensures { slice_get (marks_of flaw (shared infos.now) found.now) at ≡ Some result }
{
    match flaw {
        Flaw::RepeatsName => !is_place(numbers, info.name(), at as u32),
        Flaw::MissesSuper => misses(infos, numbers, info),
        Flaw::StandsAboveItself => is_cyclic_at(found, at),
        Flaw::NamesWrongKind => names_wrong(infos, numbers, info),
    }
}

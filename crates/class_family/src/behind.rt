//! The class that is looked up for a name.

ghost use Rattle.std.specs.Prelude.{◌≡◌, IfOk};
ghost use Rattle.program_rules.specs.Names.{element_of};
ghost use Rattle.program_rules.specs.Names.{class_behind, object_name};

use class_link::names::{is_array_name, without_last};
use class_model::names::ascii;
use class_model::{Memory, Name, Seq};
use std::alloc::Global;

/// What stands behind the brackets of a name.
pub fn element_of(name: &[u16]) -> &[u16]
    ensures { result.now ≡ element_of name.now }
{
    let mut rest = name;
    while let [unit, behind @ ..] = rest {
        if *unit != b'[' as u16 {
            break;
        }
        rest = behind;
    }
    rest
}

/// The class that is looked up for a name: an array's name stands for its element's class, and a
/// primitive element for Object (JVMS 5.4.3.1).
pub fn class_behind(alloc: Global, name: &Name) -> Result<Name, Memory>
    ensures { IfOk result (λ n. n ≡ class_behind name.now) }
{
    if !is_array_name(name.as_slice()) {
        return name.copy();
    }
    match element_of(name.as_slice()) {
        [unit, units @ ..] if *unit == b'L' as u16 => {
            Seq::from_slice(alloc, without_last(units))
        }
        _ => object_name(alloc),
    }
}

/// The class above all others.
pub fn object_name(alloc: Global) -> Result<Name, Memory>
    ensures { IfOk result (λ n. n ≡ object_name) }
{
    ascii(alloc, "java/lang/Object")
}

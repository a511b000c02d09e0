//! What many native methods answer.

ghost use Rattle.std.specs.Prelude.{◌≡◌, ◌≤◌, ◌<◌, ◌^◌, List, [], ◌∷◌, Some, None, length, IfOk};
ghost use Rattle.library_rules.specs.Arguments.{word, gives_bool};
ghost use Rattle.library_rules.specs.Texts.{makes_text};
ghost use Rattle.lib_core.specs.View.{deed_of};

use crate::deed::Deed;
use class_model::{Memory, Name, Seq};
use program_rules::{Making, Value};
use std::alloc::Global;

/// A length or a place as an int; one past every int is told as -1.
pub fn word(n: usize) -> i32
    ensures { result ≡ word n }
{
    match i32::try_from(n) {
        Ok(z) => z,
        Err(_) => -1,
    }
}

/// A boolean is given.
pub fn gives_bool(b: bool) -> Deed
    ensures { deed_of result ≡ gives_bool b }
{
    Deed::Gives(Some(Value::Int(if b { 1 } else { 0 })))
}

/// A new String: two words, and one for each unit.
pub fn makes_text(alloc: Global, units: Name) -> Deed
    ensures { deed_of result ≡ makes_text units }
{
    let words = units.len() as u64 + 1;
    Deed::Makes(Making::Text, units, Seq::new(alloc), words)
}

/// The units of ASCII text.
pub fn units_of(alloc: Global, bytes: &[u8]) -> Result<Name, Memory>
    ensures { IfOk result (λ units. units ≡ bytes.now) }
{
    let mut units = Vec::with_capacity(alloc, bytes.len())?;
    for byte in bytes {
        units.push(*byte as u16)?;
    }
    Ok(Seq::from_vec(units))
}

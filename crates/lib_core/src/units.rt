//! The units of texts of numbers, chars and booleans, and int arithmetic.

ghost use Rattle.std.specs.Prelude.{◌≡◌, ◌+ℤ◌, ◌-ℤ◌, ◌*ℤ◌, [], ◌∷◌, IfOk};
ghost use Rattle.std.specs.Fmt.{signed_decimal};
ghost use Rattle.std.specs.Int.{w32, int_wrap};
ghost use Rattle.program_rules.specs.Natives.{is_true};
ghost use Rattle.library_rules.specs.Texts.{bool_text, char_unit};

use crate::giving::units_of;
use class_model::{Memory, Name, Seq};
use std::alloc::Global;

/// The decimal digits of an int.
pub fn int_units(alloc: Global, number: i32) -> Result<Name, Memory>
    ensures { IfOk result (λ units. units ≡ signed_decimal number) }
{
    let digits = format!(in alloc; "{number}")?;
    let units = units_of(alloc, digits.as_bytes())?;
    Ok(units)
}

/// The decimal digits of a long.
pub fn long_units(alloc: Global, number: i64) -> Result<Name, Memory>
    ensures { IfOk result (λ units. units ≡ signed_decimal number) }
{
    let digits = format!(in alloc; "{number}")?;
    let units = units_of(alloc, digits.as_bytes())?;
    Ok(units)
}

// The unit that an int has as a char.
fn char_unit(number: i32) -> u16
    ensures { result ≡ char_unit number }
{
    (number.cast_unsigned() & 0xffff) as u16
}

/// The one unit of an int as a char.
pub fn char_units(alloc: Global, number: i32) -> Result<Name, Memory>
    ensures { IfOk result (λ units. units ≡ char_unit number ∷ []) }
{
    let units = vec![in alloc; char_unit(number)]?;
    Ok(Seq::from_vec(units))
}

// The name of a boolean.
fn bool_text(b: bool) -> &'static str
    ensures { result.now ≡ bool_text b }
{
    if b { "true" } else { "false" }
}

/// The name of a boolean.
pub fn bool_units(alloc: Global, b: bool) -> Result<Name, Memory>
    ensures { IfOk result (λ units. units ≡ bool_text b) }
{
    let text = bool_text(b);
    let units = units_of(alloc, text.as_bytes())?;
    Ok(units)
}

/// A boolean argument that isn't narrowed is true unless it is 0.
pub fn is_true(number: i32) -> bool
    ensures { result ≡ is_true number }
{
    number != 0
}

/// The difference in int arithmetic.
pub fn minus(a: i32, b: i32) -> i32
    ensures { result ≡ int_wrap w32 (a -ℤ b) }
{
    a.wrapping_sub(b)
}

/// The sum in int arithmetic.
pub fn plus(a: i32, b: i32) -> i32
    ensures { result ≡ int_wrap w32 (a +ℤ b) }
{
    a.wrapping_add(b)
}

/// The product in int arithmetic.
pub fn times(a: i32, b: i32) -> i32
    ensures { result ≡ int_wrap w32 (a *ℤ b) }
{
    a.wrapping_mul(b)
}

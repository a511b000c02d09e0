//! The names of classes and arrays, taken apart (JVMS 4.3.2).

ghost use Rattle.std.specs.Prelude.{◌≡◌, IfOk, false};
ghost use Rattle.program_rules.specs.Names.{is_array_name};
ghost use Rattle.type_rules.specs.References.{dimensions, base_stated, base_of};
ghost use Rattle.vframes.specs.Named.{base};

use class_link::names::without_last;
use class_model::{Memory, Name, Seq};
use std::alloc::Global;

/// What is left of a class or an array without its dimensions: a class by its name, or a primitive
/// kind by its letter.
#[derive(Drop)]
pub enum Base {
    Class(Name),
    Letter(u16),
}

// The brackets that a text begins with, and what stands behind them.
fn behind_brackets(text: &[u16]) -> (usize, &[u16])
    ensures dimensions { dimensions text.now ≡ result.0 }
    ensures base { base_stated text.now ≡ base_stated result.1.now }
    ensures rest { is_array_name result.1.now ≡ false }
{
    let mut dimensions = 0;
    let mut rest = text;
    while let [unit, behind @ ..] = rest {
        if *unit != b'[' as u16 {
            break;
        }
        dimensions += 1;
        rest = behind;
    }
    (dimensions, rest)
}

fn base_stated(alloc: Global, text: &[u16]) -> Result<Base, Memory>
    requires { is_array_name text.now ≡ false }
    ensures { IfOk result (λ b. base b ≡ base_stated text.now) }
{
    match text {
        [] => Ok(Base::Letter(0)),
        [unit, units @ ..] => {
            if *unit == b'L' as u16 {
                Ok(Base::Class(Seq::from_slice(alloc, without_last(units))?))
            } else {
                Ok(Base::Letter(*unit))
            }
        }
    }
}

/// The dimensions of a class or an array, and what is left without them.
pub fn take_apart(alloc: Global, name: &Name) -> Result<(usize, Base), Memory>
    ensures dimensions { IfOk result (λ parts. parts.0 ≡ dimensions name.now) }
    ensures base { IfOk result (λ parts. base parts.1 ≡ base_of name.now) }
{
    let (dimensions, rest) = behind_brackets(name.as_slice());
    if dimensions == 0 {
        return Ok((0, Base::Class(name.copy()?)));
    }
    Ok((dimensions, base_stated(alloc, rest)?))
}

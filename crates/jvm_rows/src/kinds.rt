// Kinds of elements and of values.

ghost use Rattle.std.specs.Prelude.{◌≡◌};
ghost use Rattle.program_rules.specs.Kinds.{narrow_value};
ghost use Rattle.machine_rules.specs.Arrays.{serves};
ghost use Rattle.class_link.specs.Symbols.{kind_of};

use class_model::Kind;
use jvm_arith::{low_byte, low_char, low_short, narrow};
use program_rules::{Element, Value};

/// Whether an instruction reads and writes elements of a kind.
pub fn serves(element: Element, kind: &Kind) -> bool
    ensures { result ≡ serves element (kind_of kind.now) }
{
    match element {
        Element::IntElement => matches!(kind, Kind::Int),
        Element::LongElement => matches!(kind, Kind::Long),
        Element::ReferenceElement => matches!(kind, Kind::Ref(_)),
        Element::ByteElement => matches!(kind, Kind::Byte | Kind::Boolean),
        Element::CharElement => matches!(kind, Kind::Char),
        Element::ShortElement => matches!(kind, Kind::Short),
    }
}

// What is left of an int where it is stored at a kind.
#[inline(always)]
fn narrow_int(kind: &Kind, z: i32) -> Value
    ensures { result ≡ narrow_value (kind_of kind.now) (Value.Int z) }
{
    match kind {
        Kind::Boolean => Value::Int(narrow(Kind::Boolean, z)),
        Kind::Byte => Value::Int(low_byte(z)),
        Kind::Char => Value::Int(low_char(z)),
        Kind::Short => Value::Int(low_short(z)),
        Kind::Int | Kind::Long | Kind::Ref(_) => Value::Int(z),
    }
}

/// What is left of a value where it is stored at a kind.
#[inline(always)]
pub fn narrow_to(kind: &Kind, v: Value) -> Value
    ensures { result ≡ narrow_value (kind_of kind.now) v }
{
    match v {
        Value::Int(z) => narrow_int(kind, z),
        Value::Long(_) | Value::Ref(_) | Value::Null => v,
    }
}

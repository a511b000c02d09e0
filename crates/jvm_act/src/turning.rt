//! The turn of a row by which the running frame stays.

ghost use Rattle.std.specs.Prelude.{◌≡◌};
ghost use Rattle.jvm_act.specs.Turned.{turn_of};

use jvm_rows::Effect;
use jvm_unwind::Turn;

/// The turn of a row by which the running frame stays.
pub fn turn_of(effect: Effect) -> Turn
    ensures { result ≡ turn_of effect }
{
    match effect {
        Effect::NoRow => Turn::NoRow,
        Effect::Goes => Turn::Goes,
        Effect::Throws(x) => Turn::Throws(x),
    }
}

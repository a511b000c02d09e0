//! `java/lang/Math`, and what is asked of plain ints and chars.

ghost use Rattle.std.specs.Prelude.{◌≡◌, ◌≢◌, ◌+◌, ◌<◌, ◌≤◌, ◌^◌, pos, List, Some, None, length, IfOk, IfSome, IfNone};
ghost use Rattle.std.specs.Int.{w32, w64, int_wrap};
ghost use Rattle.library_rules.specs.Numbers as def;
ghost use Rattle.lib_core.specs.Answers.{Answers, AnswersAlone};

use jvm_arith::{int_neg, long_neg};
use jvm_values::Object;
use lib_core::{Deed, gives_bool, int, ints, long, longs, plus, text, value};
use program_rules::{Fault, Value};

// ---- Integer.parseInt

fn is_digit(unit: u16) -> bool
    ensures { result ≡ def.is_digit unit }
{
    48 <= unit && unit <= 57
}

// The number of digits; one past every int is none.
fn digits_from(units: &[u16]) -> Option<u64>
    ensures { result ≡ def.digits_from 0 units.now }
{
    let mut value: u64 = 0;
    for unit in units {
        if !is_digit(*unit) || value >= 4_294_967_296 {
            return None;
        }
        value = value * 10 + (*unit - 48) as u64;
    }
    Some(value)
}

fn natural(units: &[u16]) -> Option<u64>
    ensures { result ≡ def.natural units.now }
{
    if units.is_empty() {
        return None;
    }
    digits_from(units)
}

fn positive(number: Option<u64>) -> Option<i32>
    ensures { result ≡ def.positive number }
{
    match number {
        Some(n) if n < 2_147_483_648 => Some(n as i32),
        _ => None,
    }
}

fn negative(number: Option<u64>) -> Option<i32>
    ensures { result ≡ def.negative number }
{
    match number {
        Some(n) if n <= 2_147_483_648 => Some((-(n as i64)) as i32),
        _ => None,
    }
}

// ASCII digits behind at most one sign.
fn number_in(units: &[u16]) -> Option<i32>
    ensures { result ≡ def.number_in units.now }
{
    match units {
        [] => None,
        [first, rest @ ..] => {
            if *first == 45 {
                negative(natural(rest))
            } else if *first == 43 {
                positive(natural(rest))
            } else {
                positive(natural(units))
            }
        }
    }
}

/// `Integer.parseInt(String)`
pub fn parse_int(objects: &[Object], args: &[Value]) -> Deed
    ensures { Answers def.parse_int objects.now args.now result }
{
    let Some(v) = value(args) else {
        return Deed::NoDeed;
    };
    match text(objects, v) {
        Ok(units) => match number_in(units) {
            Some(number) => Deed::Gives(Some(Value::Int(number))),
            None => Deed::Throws(Fault::NumberFormatException),
        },
        Err(deed) => deed,
    }
}

// ---- Character

fn is_between(low: u16, high: u16, number: i32) -> bool
    ensures { result ≡ def.is_between low high number }
{
    low as i32 <= number && number <= high as i32
}

/// `Character.isDigit(C)`
pub fn char_is_digit(args: &[Value]) -> Deed
    ensures { AnswersAlone def.char_is_digit args.now result }
{
    let Some(number) = int(args) else {
        return Deed::NoDeed;
    };
    gives_bool(is_between(48, 57, number))
}

/// `Character.isLetter(C)`
pub fn char_is_letter(args: &[Value]) -> Deed
    ensures { AnswersAlone def.char_is_letter args.now result }
{
    let Some(number) = int(args) else {
        return Deed::NoDeed;
    };
    gives_bool(is_between(65, 90, number) || is_between(97, 122, number))
}

// ---- Math

fn int_absolute(number: i32) -> i32
    ensures { result ≡ int_wrap w32 (def.absolute number) }
{
    if number < 0 {
        return int_neg(number);
    }
    number
}

fn long_absolute(number: i64) -> i64
    ensures { result ≡ int_wrap w64 (def.absolute number) }
{
    if number < 0 {
        return long_neg(number);
    }
    number
}

/// `abs(I)`
pub fn abs_int(args: &[Value]) -> Deed
    ensures { AnswersAlone def.abs_int args.now result }
{
    let Some(number) = int(args) else {
        return Deed::NoDeed;
    };
    Deed::Gives(Some(Value::Int(int_absolute(number))))
}

/// `abs(J)`
pub fn abs_long(args: &[Value]) -> Deed
    ensures { AnswersAlone def.abs_long args.now result }
{
    let Some(number) = long(args) else {
        return Deed::NoDeed;
    };
    Deed::Gives(Some(Value::Long(long_absolute(number))))
}

/// `max(II)`
pub fn max_int(args: &[Value]) -> Deed
    ensures { AnswersAlone def.max_int args.now result }
{
    let Some((a, b)) = ints(args) else {
        return Deed::NoDeed;
    };
    Deed::Gives(Some(Value::Int(if a < b { b } else { a })))
}

/// `max(JJ)`
pub fn max_long(args: &[Value]) -> Deed
    ensures { AnswersAlone def.max_long args.now result }
{
    let Some((a, b)) = longs(args) else {
        return Deed::NoDeed;
    };
    Deed::Gives(Some(Value::Long(if a < b { b } else { a })))
}

/// `min(II)`
pub fn min_int(args: &[Value]) -> Deed
    ensures { AnswersAlone def.min_int args.now result }
{
    let Some((a, b)) = ints(args) else {
        return Deed::NoDeed;
    };
    Deed::Gives(Some(Value::Int(if a < b { a } else { b })))
}

/// `min(JJ)`
pub fn min_long(args: &[Value]) -> Deed
    ensures { AnswersAlone def.min_long args.now result }
{
    let Some((a, b)) = longs(args) else {
        return Deed::NoDeed;
    };
    Deed::Gives(Some(Value::Long(if a < b { a } else { b })))
}

fn is_of_other_sign(remainder: i64, divisor: i64) -> bool
    ensures { result ≡ def.is_of_other_sign remainder divisor }
{
    if remainder < 0 {
        return 0 < divisor;
    }
    0 < remainder && divisor < 0
}

// The remainder of a division that is rounded down.
fn floor_remainder(a: i32, b: i32) -> i32
    requires { b ≢ pos 0 }
    ensures { result ≡ def.floor_rem a b }
{
    let remainder = a.wrapping_rem(b);
    if is_of_other_sign(remainder as i64, b as i64) {
        return plus(remainder, b);
    }
    remainder
}

/// `floorMod(II)`
pub fn floor_mod(args: &[Value]) -> Deed
    ensures { AnswersAlone def.floor_mod args.now result }
{
    let Some((a, b)) = ints(args) else {
        return Deed::NoDeed;
    };
    if b == 0 {
        return Deed::Throws(Fault::ArithmeticException);
    }
    Deed::Gives(Some(Value::Int(floor_remainder(a, b))))
}

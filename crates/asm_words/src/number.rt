//! Numbers: a minus sign or nothing, and digits without a leading zero.

ghost use Rattle.std.specs.Prelude.{◌≡◌, ◌≤◌, ◌<◌, ◌^◌, ℤ, pos, negsuc, ◌≤ℤ◌, IfSome};
ghost use Rattle.asm_words.specs.Numbers.{decimal_from, natural, number_in, up_to, between};

use class_model::Name;

const ZERO: u16 = b'0' as u16;

const NINE: u16 = b'9' as u16;

const MINUS: u16 = b'-' as u16;

/// A number that has at least this has as many digits as any operand may have.
const NINETEEN_DIGITS: u64 = 1_000_000_000_000_000_000;

fn decimal(units: &[u16]) -> Option<u64>
    ensures { result ≡ decimal_from 0 units.now }
{
    let mut value = 0u64;
    for unit in units {
        if *unit < ZERO || NINE < *unit || NINETEEN_DIGITS <= value {
            return None;
        }
        value = value * 10 + u64::from(*unit - ZERO);
    }
    Some(value)
}

fn natural(units: &[u16]) -> Option<u64>
    ensures { result ≡ natural units.now }
{
    match units {
        [] => None,
        [ZERO] => Some(0),
        [ZERO, ..] => None,
        _ => decimal(units),
    }
}

/// Whether it has a minus sign, and its size.
fn number_in(units: &[u16]) -> Option<(bool, u64)>
    ensures { result ≡ number_in units.now }
{
    match units {
        [MINUS, digits @ ..] => Some((true, natural(digits)?)),
        _ => Some((false, natural(units)?)),
    }
}

/// The number from 0 up to a bound that a word is.
pub fn up_to(bound: u64, units: &[u16]) -> Option<u64>
    ensures value { result ≡ up_to bound units.now }
    ensures within { IfSome result (λ n. n ≤ bound) }
{
    let (negative, size) = number_in(units)?;
    if (negative && 0 < size) || bound < size {
        return None;
    }
    Some(size)
}

/// The number from one below the negative of a bound up to the bound that a word is.
pub fn between(bound: u64, units: &[u16]) -> Option<i64>
    requires { bound < 2 ^ 63 }
    ensures value { result ≡ between bound units.now }
    ensures low { IfSome result (λ n. negsuc bound ≤ℤ n) }
    ensures high { IfSome result (λ n. n ≤ℤ pos bound) }
{
    let (negative, size) = number_in(units)?;
    if negative && 0 < size {
        if bound < size - 1 {
            return None;
        }
        return Some(-1 - (size - 1) as i64);
    }
    if bound < size {
        return None;
    }
    Some(size as i64)
}

/// A number of one byte without a sign.
pub fn u1(word: &Name) -> Option<u8>
    ensures { result ≡ up_to 0xFF word.now }
{
    let number = up_to(0xFF, word.as_slice())?;
    Some(number as u8)
}

/// A number of two bytes without a sign.
pub fn u2(word: &Name) -> Option<u16>
    ensures { result ≡ up_to 0xFFFF word.now }
{
    let number = up_to(0xFFFF, word.as_slice())?;
    Some(number as u16)
}

/// A number of one byte with a sign.
pub fn s1(word: &Name) -> Option<i16>
    ensures { result ≡ between 0x7F word.now }
{
    let number = between(0x7F, word.as_slice())?;
    Some(number as i16)
}

/// A number of two bytes with a sign.
pub fn s2(word: &Name) -> Option<i16>
    ensures { result ≡ between 0x7FFF word.now }
{
    let number = between(0x7FFF, word.as_slice())?;
    Some(number as i16)
}

/// A number of four bytes with a sign.
pub fn s4(word: &[u16]) -> Option<i32>
    ensures { result ≡ between 0x7FFF_FFFF word.now }
{
    let number = between(0x7FFF_FFFF, word)?;
    Some(number as i32)
}

/// A number of eight bytes with a sign.
pub fn s8(word: &Name) -> Option<i64>
    ensures { result ≡ between 0x7FFF_FFFF_FFFF_FFFF word.now }
{
    between(0x7FFF_FFFF_FFFF_FFFF, word.as_slice())
}

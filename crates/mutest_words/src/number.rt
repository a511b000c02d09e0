//! Numbers of options: decimal digits without a sign or a leading zero.

ghost use Rattle.std.specs.Prelude.{◌≡◌, ◌≤◌, IfSome};
ghost use Rattle.mutest_words.specs.Numbers.{decimal_from, number_in, number_between};

/// A number that has at least this has as many digits as any range has.
const TEN_DIGITS: u64 = 1_000_000_000;

fn decimal(bytes: &[u8]) -> Option<u64>
    ensures { result ≡ decimal_from 0 bytes.now }
{
    let mut value = 0u64;
    for byte in bytes {
        if *byte < b'0' || b'9' < *byte || TEN_DIGITS <= value {
            return None;
        }
        value = value * 10 + u64::from(*byte - b'0');
    }
    Some(value)
}

fn number_in(bytes: &[u8]) -> Option<u64>
    ensures { result ≡ number_in bytes.now }
{
    match bytes {
        [] => None,
        [b'0', ..] => None,
        _ => decimal(bytes),
    }
}

/// The number between two bounds that a word is.
pub fn number_between(least: u32, most: u32, word: &str) -> Option<u32>
    ensures { result ≡ number_between least most word.now }
{
    let number = number_in(word.as_bytes())?;
    if number < u64::from(least) || u64::from(most) < number {
        return None;
    }
    Some(number as u32)
}

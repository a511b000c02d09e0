//! Texts in double quotes.

ghost use Rattle.std.specs.Prelude.{◌≡◌, IfOk};
ghost use Rattle.asm_words.specs.Quoted.{hex_digit, quote_step, unquoted, is_closed, is_quoted, quoted_in};

use class_model::{Memory, Name, Seq, parted_at};
use std::alloc::Global;

const QUOTE: u16 = b'"' as u16;

const BACKSLASH: u16 = b'\\' as u16;

const SPACE: u16 = b' ' as u16;

const LETTER_U: u16 = b'u' as u16;

/// Where the reading of a text in quotes stands.
#[derive(Clone, Copy)]
enum Quote {
    Open,
    /// Behind a backslash.
    Escape,
    /// Behind a backslash and `u`: how many digits are still to come, and what the ones before say.
    Digits(u8, u16),
    /// Behind the closing quote.
    Closed,
}

fn hex_digit(unit: u16) -> Option<u16>
    ensures { result ≡ hex_digit unit }
{
    match unit {
        48..=57 => Some(unit - 48),
        65..=70 => Some(unit - 55),
        97..=102 => Some(unit - 87),
        _ => None,
    }
}

fn digit_step(left: u8, value: u16, unit: u16) -> Option<(Quote, Option<u16>)>
    ensures { result ≡ quote_step (Quote.Digits left value) unit }
{
    let digit = hex_digit(unit)?;
    let value = ((u32::from(value) * 16 + u32::from(digit)) % 0x1_0000) as u16;
    if left <= 1 {
        Some((Quote::Open, Some(value)))
    } else {
        Some((Quote::Digits(left - 1, value), None))
    }
}

/// What follows a state at a unit, with the unit of the text that is whole then.
fn quote_step(state: Quote, unit: u16) -> Option<(Quote, Option<u16>)>
    ensures { result ≡ quote_step state unit }
{
    match state {
        Quote::Open => match unit {
            QUOTE => Some((Quote::Closed, None)),
            BACKSLASH => Some((Quote::Escape, None)),
            _ => Some((Quote::Open, Some(unit))),
        },
        Quote::Escape => match unit {
            QUOTE | BACKSLASH => Some((Quote::Open, Some(unit))),
            LETTER_U => Some((Quote::Digits(4, 0), None)),
            _ => None,
        },
        Quote::Digits(left, value) => digit_step(left, value, unit),
        Quote::Closed => match unit {
            SPACE => Some((Quote::Closed, None)),
            _ => None,
        },
    }
}

fn is_closed(state: Quote) -> bool
    ensures { result ≡ is_closed state }
{
    matches!(state, Quote::Closed)
}

/// The text behind an opening quote, where nothing but spaces stands behind the closing one.
fn unquoted(alloc: Global, units: &[u16]) -> Result<Option<Name>, Memory>
    ensures { IfOk result (λ o. o ≡ unquoted Quote.Open units.now) }
{
    let mut text = Seq::new(alloc);
    let mut state = Quote::Open;
    for unit in units {
        let Some((next, whole)) = quote_step(state, *unit) else {
            return Ok(None);
        };
        if let Some(unit) = whole {
            text.push(unit)?;
        }
        state = next;
    }
    if is_closed(state) {
        Ok(Some(text))
    } else {
        Ok(None)
    }
}

/// The first of the words begins with a quote.
pub fn is_quoted(words: &[Name]) -> bool
    ensures { result ≡ is_quoted words.now }
{
    match words {
        [] => false,
        [first, ..] => matches!(first.as_slice(), [QUOTE, ..]),
    }
}

/// The text between quotes that ends a line.
pub fn quoted_in(alloc: Global, line: &[u16]) -> Result<Option<Name>, Memory>
    ensures { IfOk result (λ o. o ≡ quoted_in line.now) }
{
    match parted_at(line, QUOTE) {
        Some((_, behind)) => unquoted(alloc, behind),
        None => Ok(None),
    }
}

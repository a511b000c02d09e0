//! The pieces of which the report's text is made. Each function adds one to a text that is lent to
//! it, so no other text of the report is held beside that one.

ghost use Rattle.std.specs.Prelude.{◌≡◌, ◌++◌, OnOk, true, decimal};
ghost use Rattle.serde_json.specs.Written.{comma_if};
ghost use Rattle.report_pieces.specs.Pieces.{quoted};

use class_model::{Bytes, Memory};
use serde_json::Value;
use std::alloc::Global;

/// A piece as it is.
pub fn put(text: &mut Bytes, piece: &str) -> Result<(), Memory>
    ensures { OnOk result (text.new ≡ text.old ++ piece.now) }
{
    text.extend_from_slice(piece.as_bytes())?;
    Ok(())
}

/// A comma, where something stands before.
pub fn put_comma(text: &mut Bytes, later: &mut bool) -> Result<(), Memory>
    ensures text { OnOk result (text.new ≡ text.old ++ comma_if later.old) }
    ensures later { OnOk result (later.new ≡ true) }
{
    if *later {
        put(text, ",")?;
    }
    *later = true;
    Ok(())
}

/// A text as a string of JSON.
pub fn put_string(alloc: Global, text: &mut Bytes, string: &str) -> Result<(), Memory>
    ensures { OnOk result (text.new ≡ text.old ++ quoted string.now) }
{
    let value = Value::try_from_str(alloc, string)?;
    let quoted = value.to_vec(alloc)?;
    text.extend_from_slice(quoted.as_slice())?;
    Ok(())
}

/// A number in decimal.
pub fn put_number(alloc: Global, text: &mut Bytes, number: u16) -> Result<(), Memory>
    ensures { OnOk result (text.new ≡ text.old ++ decimal number) }
{
    let digits = format!(in alloc; "{number}")?;
    put(text, digits.as_str())?;
    Ok(())
}

//! The identifiers of tests: each is made once, and copied wherever a mutant names it.

ghost use Rattle.std.specs.Prelude.{◌≡◌, ◌++◌, length, map, nat_lt, IfOk, OnOk, slice_get};
ghost use Rattle.std.specs.List.{list_any};
ghost use Rattle.report_pieces.specs.Pieces.{quoted_id, ids_text, id_pieces, killers_text, AddsIf};

use crate::pieces::{put, put_comma, put_string};
use crate::text::test_id;
use class_model::{Bytes, Memory, Seq};
use class_table::Test;
use std::alloc::Global;

fn quoted_id(alloc: Global, test: &Test) -> Result<Bytes, Memory>
    ensures { IfOk result (λ id. id ≡ quoted_id test.now) }
{
    let id = test_id(alloc, test)?;
    let mut quoted = Bytes::new(alloc);
    put_string(alloc, &mut quoted, id.as_str())?;
    Ok(quoted)
}

/// The identifier of each test, as it stands in the report.
pub fn quoted_ids(alloc: Global, tests: &[Test]) -> Result<Seq<Bytes>, Memory>
    ensures { IfOk result (λ ids. ids ≡ map quoted_id tests.now) }
{
    let mut ids = Seq::new(alloc);
    for test in tests {
        ids.push(quoted_id(alloc, test)?)?;
    }
    Ok(ids)
}

// The identifier of the test of a number, if there is one.
fn put_id(text: &mut Bytes, later: &mut bool, ids: &[Bytes], number: u32) -> Result<(), Memory>
    ensures { OnOk result (
        AddsIf (slice_get ids.now number) text.old text.new later.old later.new) }
{
    let Some(id) = ids.get(number as usize) else {
        return Ok(());
    };
    put_comma(text, later)?;
    text.extend_from_slice(id.as_slice())?;
    Ok(())
}

/// The identifiers of the tests of some numbers. A number that no test has names none.
pub fn put_ids(text: &mut Bytes, ids: &[Bytes], numbers: &[u32]) -> Result<(), Memory>
    ensures { OnOk result (text.new ≡ text.old ++ ids_text ids.now numbers.now) }
{
    let mut later = false;
    put(text, "[")?;
    for number in numbers {
        put_id(text, &mut later, ids, *number)?;
    }
    put(text, "]")?;
    Ok(())
}

fn name_some(ids: &[Bytes], numbers: &[u32]) -> bool
    ensures { result ≡ list_any (λ number. nat_lt number (length ids.now)) numbers.now }
{
    numbers.iter().any(|number| (*number as usize) < ids.len())
}

/// The member of the tests that kill, if one does.
pub fn put_killers(text: &mut Bytes, ids: &[Bytes], killers: &[u32]) -> Result<(), Memory>
    ensures { OnOk result (
        text.new ≡ text.old ++ killers_text (id_pieces ids.now killers.now)) }
{
    if name_some(ids, killers) {
        put(text, ",\"killedBy\":")?;
        put_ids(text, ids, killers)?;
    }
    Ok(())
}

//! The texts of files: of mutants with the source, and of tests.

ghost use Rattle.std.specs.Prelude.{◌≡◌, ◌++◌, OnOk, Some, option_map, slice_get};
ghost use Rattle.report_schema.specs.Report.{text_or_empty, source_of};
ghost use Rattle.report_pieces.specs.Pieces.{file_text, files_text, test_text, tests_text, test_file_text, test_files_text, AddsIf};

use crate::input::{Group, ReportInput};
use crate::mutants::put_mutants;
use crate::pieces::{put, put_comma, put_string};
use crate::text::{printed, test_id};
use class_model::{Bytes, Memory};
use class_table::Test;
use std::alloc::Global;
use std::str;

/// Bytes as a text, which is empty where they are not UTF-8.
pub fn text_or_empty(bytes: &[u8]) -> &str
    ensures { result.now ≡ text_or_empty bytes.now }
{
    match str::from_utf8(bytes) {
        Ok(text) => text,
        Err(_) => "",
    }
}

// The source of a number, empty where there is none or it isn't UTF-8.
fn source_of(sources: &[Bytes], number: usize) -> &str
    ensures { result.now ≡ source_of sources.now number }
{
    match sources.get(number) {
        Some(source) => text_or_empty(source.as_slice()),
        None => "",
    }
}

// ---- files of mutants

// A file of mutants under its key.
fn put_file(
    alloc: Global,
    text: &mut Bytes,
    ids: &[Bytes],
    input: &ReportInput,
    index: usize,
    group: &Group,
) -> Result<(), Memory>
    ensures { OnOk result (
        text.new ≡ text.old ++ file_text ids.now input.now index group.now) }
{
    put_string(alloc, text, text_or_empty(group.key.as_slice()))?;
    put(text, ":{\"language\":\"java\",\"mutants\":[")?;
    put_mutants(
        alloc,
        text,
        ids,
        input.mutants.as_slice(),
        input.verdicts.as_slice(),
        group.numbers.as_slice(),
    )?;
    put(text, ",\"source\":")?;
    put_string(alloc, text, source_of(input.sources.as_slice(), index))?;
    put(text, "}")?;
    Ok(())
}

/// The files of mutants, with the closing bracket.
pub fn put_files(
    alloc: Global,
    text: &mut Bytes,
    ids: &[Bytes],
    input: &ReportInput,
    groups: &[Group],
) -> Result<(), Memory>
    ensures { OnOk result (text.new ≡ text.old ++ files_text ids.now input.now groups.now) }
{
    let mut later = false;
    for (index, group) in groups.iter().enumerate() {
        put_comma(text, &mut later)?;
        put_file(alloc, text, ids, input, index, group)?;
    }
    put(text, "}")?;
    Ok(())
}

// ---- files of tests

fn put_test(alloc: Global, text: &mut Bytes, test: &Test) -> Result<(), Memory>
    ensures { OnOk result (text.new ≡ text.old ++ test_text test.now) }
{
    let id = test_id(alloc, test)?;
    let name = printed(alloc, &test.method)?;
    put(text, "{\"id\":")?;
    put_string(alloc, text, id.as_str())?;
    put(text, ",\"name\":")?;
    put_string(alloc, text, name.as_str())?;
    put(text, "}")?;
    Ok(())
}

// The test of a number, if there is one.
fn put_test_of(
    alloc: Global,
    text: &mut Bytes,
    later: &mut bool,
    tests: &[Test],
    number: usize,
) -> Result<(), Memory>
    ensures { OnOk result (
        AddsIf (option_map test_text (slice_get tests.now number)) text.old text.new
        later.old later.new) }
{
    let Some(test) = tests.get(number) else {
        return Ok(());
    };
    put_comma(text, later)?;
    put_test(alloc, text, test)?;
    Ok(())
}

// The tests of some numbers, with the closing bracket.
fn put_tests(
    alloc: Global,
    text: &mut Bytes,
    tests: &[Test],
    numbers: &[usize],
) -> Result<(), Memory>
    ensures { OnOk result (text.new ≡ text.old ++ tests_text tests.now numbers.now) }
{
    let mut later = false;
    for number in numbers {
        put_test_of(alloc, text, &mut later, tests, *number)?;
    }
    put(text, "]")?;
    Ok(())
}

// A file of tests under its key.
fn put_test_file(
    alloc: Global,
    text: &mut Bytes,
    tests: &[Test],
    group: &Group,
) -> Result<(), Memory>
    ensures { OnOk result (text.new ≡ text.old ++ test_file_text tests.now group.now) }
{
    put_string(alloc, text, text_or_empty(group.key.as_slice()))?;
    put(text, ":{\"tests\":[")?;
    put_tests(alloc, text, tests, group.numbers.as_slice())?;
    put(text, "}")?;
    Ok(())
}

/// The files of tests, with the closing bracket.
pub fn put_test_files(
    alloc: Global,
    text: &mut Bytes,
    tests: &[Test],
    groups: &[Group],
) -> Result<(), Memory>
    ensures { OnOk result (text.new ≡ text.old ++ test_files_text tests.now groups.now) }
{
    let mut later = false;
    for group in groups {
        put_comma(text, &mut later)?;
        put_test_file(alloc, text, tests, group)?;
    }
    put(text, "}")?;
    Ok(())
}

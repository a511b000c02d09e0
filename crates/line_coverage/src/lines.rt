//! The tests of each line.

ghost use Rattle.std.specs.Prelude.{◌≡◌, OnOk};
ghost use Rattle.line_coverage.specs.Lines.{AddsToLine, AddsToLines, KeepsOtherRuns, words_at};

use crate::words::add_test;
use class_model::{ClassId, Memory};
use std::collections::HashMap;

/// The words of each line, by the class's number and the line.
pub type Lines = HashMap<(u32, u16), Vec<u64>>;

// Adds a test to those that reach a line.
fn add_line(lines: &mut Lines, line: (u32, u16), test: usize) -> Result<(), Memory>
    ensures ok { OnOk result (AddsToLine line test lines.old lines.new) }
    ensures others { KeepsOtherRuns test lines.old lines.new }
{
    let words = lines.entry(line)?.or_default();
    add_test(words, test)?;
    Ok(())
}

/// The words of a line, none where no test reaches it.
pub fn words_at(lines: &Lines, line: (u32, u16)) -> &[u64]
    ensures { result.now ≡ words_at lines.now line }
{
    match lines.get(&line) {
        Some(words) => words.as_slice(),
        None => &[],
    }
}

/// Adds a test to those that reach each of these lines.
pub fn add_lines(lines: &mut Lines, reached: &[(ClassId, u16)], test: usize) -> Result<(), Memory>
    ensures ok { OnOk result (AddsToLines reached.now test lines.old lines.new) }
    ensures others { KeepsOtherRuns test lines.old lines.new }
{
    for (class, line) in reached {
        add_line(lines, (class.0, *line), test)?;
    }
    Ok(())
}

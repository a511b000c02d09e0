//! The line of each instruction of a code (JVMS 4.7.12; which of several rows counts is this
//! project's own).

ghost use Rattle.std.specs.Prelude.{◌≡◌, [], map, IfOk};
ghost use Rattle.std.specs.Option.{option_map};
ghost use Rattle.program_rules.specs.Linked.{line_row, line_at};
ghost use Rattle.class_link.specs.View.{line_of};
ghost use Rattle.class_link.specs.Lines.{AreStartsOf, NotesStart, AreLinesFrom, row_or};

use crate::linked::LinkedLine;
use class_model::{Memory, Seq};
use std::alloc::Global;
use std::marker::Model;

/// The rows of a code's line tables, and the line of each instruction, so that a look-up takes one
/// index. Contracts see the rows in file order.
#[derive(Drop)]
pub struct LineTable {
    rows: Seq<LinkedLine>,
    by_instruction: Vec<u16>,
}

impl Model for LineTable {
    ghost use Rattle.std.specs.Prelude.{List, map};
    ghost use Rattle.class_link.specs.declared.linked.LinkedLine.{LinkedLine};

    ghost Value = { List LinkedLine };

    ghost use Rattle.class_link.specs.View.{line_of};
    ghost use Rattle.class_link.specs.Lines.{AreLinesOf};

    ghost view = { λ t. t.rows };

    ghost invariant = { λ t. AreLinesOf t.by_instruction.items (map line_of t.rows) };
}

impl LineTable {
    /// The table of a code without rows.
    #[tactic(auto, using(crate::proofs::LineLaws::lines_none))]
    pub fn empty(alloc: Global) -> LineTable
        ensures { result ≡ [] }
    {
        LineTable {
            rows: Seq::new(alloc),
            by_instruction: Vec::new(alloc),
        }
    }

    /// The rows of a code with so many instructions.
    pub fn new(
        alloc: Global,
        rows: Seq<LinkedLine>,
        instructions: usize,
    ) -> Result<LineTable, Memory>
        ensures { IfOk result (λ t. t ≡ rows) }
    {
        let starts = starts(alloc, rows.as_slice(), instructions)?;
        let by_instruction = lines(alloc, starts.as_slice())?;
        Ok(LineTable {
            rows,
            by_instruction,
        })
    }

    /// The line of an instruction, 0 where there is none: that of the row with the greatest start
    /// at or before it, of several such rows the last.
    pub fn line(&self, at: usize) -> u16
        ensures { result ≡ line_at at (map line_of self.now) }
    {
        match self.by_instruction.get(at) {
            Some(line) => *line,
            None => line_at(self.rows.as_slice(), at),
        }
    }
}

// The line of the last row that starts at each instruction.
fn starts(
    alloc: Global,
    rows: &[LinkedLine],
    instructions: usize,
) -> Result<Vec<Option<u16>>, Memory>
    ensures { IfOk result (λ starts. AreStartsOf starts.items (map line_of rows.now)) }
{
    let mut starts = Vec::new(alloc);
    starts.resize(instructions, None)?;
    note_starts(&mut starts, rows);
    Ok(starts)
}

// The rows that start at these instructions.
fn note_starts(starts: &mut [Option<u16>], rows: &[LinkedLine])
    ensures { AreStartsOf starts.old [] → AreStartsOf starts.new (map line_of rows.now) }
{
    for row in rows {
        note_start(starts, row);
    }
}

// One more row, which starts at one of these instructions or behind them.
fn note_start(starts: &mut [Option<u16>], row: &LinkedLine)
    ensures { NotesStart starts.old (line_of row.now) starts.new }
{
    let start = row.start as usize;
    if start < starts.len() {
        starts[start] = Some(row.line);
    }
}

// The line of each instruction: that which starts there, else that of the one before it.
fn lines(alloc: Global, starts: &[Option<u16>]) -> Result<Vec<u16>, Memory>
    ensures { IfOk result (λ lines. AreLinesFrom starts.now lines.items) }
{
    let mut lines = Vec::with_capacity(alloc, starts.len())?;
    let mut line = 0;
    for start in starts {
        line = start.unwrap_or(line);
        lines.push(line)?;
    }
    Ok(lines)
}

// The line of an instruction by a search.
fn line_at(rows: &[LinkedLine], at: usize) -> u16
    ensures { result ≡ line_at at (map line_of rows.now) }
{
    match line_row(rows, at) {
        Some(row) => row.line,
        None => 0,
    }
}

// The row that counts, once one more row stands in front.
fn later(row: LinkedLine, at: usize, found: Option<LinkedLine>) -> Option<LinkedLine>
    ensures { option_map line_of result ≡ row_or at (line_of row) (option_map line_of found) }
{
    let is_later = match found {
        Some(other) => other.start < row.start,
        None => true,
    };
    if row.start as usize <= at && is_later {
        return Some(row);
    }
    found
}

fn line_row(rows: &[LinkedLine], at: usize) -> Option<LinkedLine>
    ensures { option_map line_of result ≡ line_row at (map line_of rows.now) }
{
    let mut found = None;
    let mut left = rows.len();
    while left > 0 {
        left -= 1;
        found = later(rows[left], at, found);
    }
    found
}

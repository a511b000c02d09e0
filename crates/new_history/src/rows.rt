//! The records that are needed, by number.

ghost use Rattle.std.specs.Prelude.{◌≡◌, ◌+◌, All, length, sum_by, IfOk};
ghost use Rattle.history_rules.specs.Fitting.{FitsFields};
ghost use Rattle.new_history.specs.Needed.{FitsMade, names_in};
ghost use Rattle.new_history.specs.Numbering.{HasRoom, IsNumbering, NumbersRow};
ghost use Rattle.new_history.specs.Rows.{NumbersNeeded, NumbersAll};

use crate::needed::Needed;
use crate::numbering::Numbering;
use class_model::{Memory, Seq};
use history_file::Row;
use record_rules::RunRecord;
use std::alloc::Global;

// A record that was made.
fn made_row<'n>(
    alloc: Global,
    numbers: &mut Numbering<'n>,
    made: &'n RunRecord,
) -> Result<Row, Memory>
    requires known { IsNumbering numbers.old }
    requires fits { FitsFields made.now }
    requires room { HasRoom (length made.now.consulted + 3) numbers.old }
    ensures { IfOk result (NumbersRow made.now numbers.old numbers.new) }
{
    let test_class = numbers.name(&made.test_class)?;
    let test_method = numbers.name(&made.test_method)?;
    let end = numbers.end(&made.outcome)?;
    let consulted = numbers.entries(alloc, made.consulted.as_slice())?;
    let reached = Seq::from_slice(alloc, made.reached.as_slice())?;
    Ok(Row {
        test_class,
        test_method,
        heap: made.heap,
        depth: made.depth,
        limit: made.limit,
        end,
        steps: made.steps,
        consulted,
        reached,
    })
}

// An old record, under this limit.
fn old_row(alloc: Global, row: &Row, limit: u64) -> Result<Row, Memory>
    ensures { IfOk result (λ r. r ≡ record row.now { limit = limit }) }
{
    let consulted = Seq::from_slice(alloc, row.consulted.as_slice())?;
    let reached = Seq::from_slice(alloc, row.reached.as_slice())?;
    Ok(Row {
        test_class: row.test_class,
        test_method: row.test_method,
        heap: row.heap,
        depth: row.depth,
        limit,
        end: row.end,
        steps: row.steps,
        consulted,
        reached,
    })
}

// A record that is needed.
fn row_of<'n>(alloc: Global, numbers: &mut Numbering<'n>, needed: Needed<'n>) -> Result<Row, Memory>
    requires known { IsNumbering numbers.old }
    requires fits { FitsMade needed }
    requires room { HasRoom (names_in needed) numbers.old }
    ensures { IfOk result (NumbersNeeded needed.entry numbers.old numbers.new) }
{
    match needed {
        Needed::Old { row, limit } => {
            let row = old_row(alloc, row, limit)?;
            Ok(row)
        }
        Needed::Made(made) => {
            let row = made_row(alloc, numbers, made)?;
            Ok(row)
        }
    }
}

/// The records that are needed, in their order.
pub fn rows_of<'n>(
    alloc: Global,
    numbers: &mut Numbering<'n>,
    needed: &[Needed<'n>],
) -> Result<Seq<Row>, Memory>
    requires known { IsNumbering numbers.old }
    requires fit { All FitsMade needed.now }
    requires room { HasRoom (sum_by names_in needed.now) numbers.old }
    ensures { IfOk result (NumbersAll needed.now numbers.old numbers.new) }
{
    let mut rows = Seq::with_capacity(alloc, needed.len())?;
    for one in needed {
        let row = row_of(alloc, numbers, *one)?;
        rows.push(row)?;
    }
    Ok(rows)
}

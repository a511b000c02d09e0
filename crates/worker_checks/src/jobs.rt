//! The cells of six rows, shared among workers.

ghost use Rattle.std.specs.Prelude.{◌≡◌, ◌<◌, ◌^◌, All, IfOk, length};
ghost use Rattle.worker_checks.specs.Rows.{IsFresh, RowsSaid, below_zero_runs, row_cells};

use crate::calls::share;
use crate::rows::{RowHands, RowRecord};
use crate::samples::hands_of;
use class_model::{Memory, Seq};
use mt_edge::{Gate, Meter, NoJournal};
use std::alloc::Global;
use std::sync::Wait;
use std::thread::Threads;
use worker_gate::{CellEnd, JobCells};

/// How the cells of all six mutants ended, in their order.
pub type RowEnds = Vec<CellEnd<RowRecord, RowRecord>>;

// The cells of six mutants, each with two tests.
fn cells_of(alloc: Global, all: bool) -> Result<JobCells, Memory>
    ensures { IfOk result (λ cells. cells ≡ row_cells all) }
{
    let mutants = vec![in alloc; 0, 0, 1, 1, 2, 2, 3, 3, 4, 4, 5, 5]?;
    let tests = vec![in alloc; 0, 1, 0, 1, 0, 1, 0, 1, 0, 1, 0, 1]?;
    Ok(JobCells {
        mutants: Seq::from_vec(mutants),
        tests: Seq::from_vec(tests),
        count: 6,
        all,
    })
}

// Hands for so many workers.
fn hands_for(
    alloc: Global,
    workers: u64,
    found: bool,
    failing: Option<u64>,
) -> Result<Vec<RowHands>, Memory>
    ensures count { IfOk result (λ hands. length hands.items ≡ workers) }
    ensures fresh { IfOk result (λ hands. All (IsFresh found) hands.items) }
{
    let mut hands = Vec::with_capacity(alloc, workers as usize)?;
    for _ in 0..workers {
        hands.push(hands_of(found, failing))?;
    }
    Ok(hands)
}

/// Does the cells of six rows on so many workers. What each cell's end says is what the rows say.
pub fn do_rows<R: Threads + Wait + Sync, G: Gate + Sync>(
    rt: &R,
    alloc: Global,
    workers: u64,
    found: bool,
    failing: Option<u64>,
    all: bool,
    gate: &G,
    meter: &mut Meter,
) -> Result<RowEnds, Memory>
    requires some { 0 < workers }
    requires few { workers < 2 ^ 16 }
    requires meter { meter.old < 2 ^ 63 }
    ensures { RowsSaid all workers (below_zero_runs found) meter.old meter.new result }
{
    let cells = cells_of(alloc, all)?;
    let hands = hands_for(alloc, workers, found, failing)?;
    match share(rt, alloc, hands, cells, &NoJournal, gate, meter) {
        Ok(ends) => Ok(ends),
        Err(Memory) => Err(Memory),
    }
}

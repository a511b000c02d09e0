//! Calls of `worker_gate`, with their contracts.

ghost use Rattle.std.specs.Prelude.{IfOk};
ghost use Rattle.worker_gate.specs.Ends.{Begun, IsPlanOf, Worked};
ghost use Rattle.worker_gate.specs.Rounds.{AreRounds, StandByMutant};
ghost use Rattle.worker_gate.specs.Sharing.{MayShare, Shared};

use class_model::{Memory, Seq};
use mt_edge::Meter;
use mutant_table::ClaimTable;
use std::alloc::Global;
use std::sync::Wait;
use std::thread::Threads;
use worker_gate::{
    CellEnd, Gate, Hands, JobCells, Plan, Recorder, WorkEnd, rounds, share_cells, work_in,
};

/// `rounds`.
pub fn draw(alloc: Global, mutants: &[u64]) -> Result<Seq<u64>, Memory>
    requires { StandByMutant mutants.now }
    ensures { IfOk result (AreRounds mutants.now) }
{
    let order = rounds(alloc, mutants)?;
    Ok(order)
}

/// `work_in`.
pub fn work<W: Wait, C: Hands, R: Recorder<C::Made>, G: Gate>(
    rt: &W,
    end: &mut WorkEnd<C, C::Made, C::Found>,
    plan: &Plan,
    table: &ClaimTable,
    rec: &R,
    gate: &G,
)
    requires plan { IsPlanOf C.reading table.now.table.shared.key (C.job end.old.job.hands)
        plan.now }
    requires begun { Begun table.now.table.shared.table_id table.now.table.shared.key end.old }
    ensures { Worked C.reading table.now.table.shared.table_id table.now.table.shared.key plan.now
        (C.job end.old.job.hands) end.old end.new }
{
    work_in(rt, end, plan, table, rec, gate);
}

/// `share_cells`.
pub fn share<
    W: Threads + Wait + Sync,
    C: Hands + Send + Drop,
    R: Recorder<C::Made> + Sync,
    G: Gate + Sync,
>(
    rt: &W,
    alloc: Global,
    hands: Vec<C>,
    cells: JobCells,
    rec: &R,
    gate: &G,
    meter: &mut Meter,
) -> Result<Vec<CellEnd<C::Made, C::Found>>, Memory>
where
    C::Made: Send,
    C::Found: Send,
    requires { MayShare C.reading C.job cells hands.items meter.old }
    ensures { Shared C.reading C.job cells hands.items meter.old meter.new result }
{
    match share_cells(rt, alloc, hands, cells, rec, gate, meter) {
        Ok(ends) => Ok(ends),
        Err(Memory) => Err(Memory),
    }
}

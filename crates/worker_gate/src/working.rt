//! The loop of a worker, and all workers.

ghost use Rattle.std.specs.Prelude.{◌≡◌, ◌<◌, ◌≤◌, ◌^◌, [], All, IfOk, IfErr, length, map, vec_capacity};
ghost use Rattle.worker_gate.specs.Ends.{IsPlanOf, StandsFor, cell_drawn, Begun, Working, Turned, IsSameWorker, Worked};
ghost use Rattle.worker_gate.specs.Workers.{job_of, IsIdle, IsReady, IsPlanned, MayBegin, AllWorked};

use crate::cell::do_cell;
use crate::ends::{DrawnCell, Job, Plan, WorkEnd};
use crate::outer::{Gate, Hands, Recorder};
use class_model::Memory;
use mt_edge::EdgeFault;
use mutant_table::ClaimTable;
use std::alloc::Global;
use std::sync::Wait;
use std::thread;
use std::thread::Threads;

// The cell for which a drawn number stands.
fn drawn_cell(plan: &Plan, drawn: u64) -> DrawnCell
    requires { StandsFor plan.now drawn }
    ensures { result ≡ cell_drawn plan.now drawn }
{
    let order = plan.order.as_slice();
    let mutants = plan.mutants.as_slice();
    let tests = plan.tests.as_slice();
    let number = order[drawn as usize];
    DrawnCell {
        number,
        mutant: mutants[number as usize],
        test: tests[number as usize],
    }
}

// Tells the gate how a cell has ended.
fn tell_end<G: Gate>(gate: &G, worker: u64, drawn: u64, first: &Result<bool, Memory>) {
    if matches!(first, Ok(true)) {
        gate.detect(worker, drawn);
    }
    gate.end(worker, drawn);
}

// A worker's next cell, if one is left.
fn turn<W: Wait, C: Hands, R: Recorder<C::Made>, G: Gate>(
    rt: &W,
    end: &mut WorkEnd<C, C::Made, C::Found>,
    plan: &Plan,
    table: &ClaimTable,
    rec: &R,
    gate: &G,
) -> Result<bool, Memory>
    requires plan { IsPlanOf C.reading table.now.table.shared.key (C.job end.old.job.hands)
        plan.now }
    requires working { Working C.reading table.now.table.shared.table_id
        table.now.table.shared.key plan.now (C.job end.old.job.hands) end.old }
    ensures job { C.job end.new.job.hands ≡ C.job end.old.job.hands }
    ensures same { IsSameWorker end.old end.new }
    ensures turned { Turned C.reading table.now.table.shared.table_id table.now.table.shared.key
        plan.now (C.job end.old.job.hands) end.new result }
{
    let Some(drawn) = table.claim(&mut end.job.seat) else {
        return Ok(false);
    };
    let cell = drawn_cell(plan, drawn);
    gate.begin(end.job.worker, drawn);
    let did = do_cell(
        rt,
        end,
        cell.number,
        cell.mutant,
        cell.test,
        plan.all,
        table,
        rec,
    );
    tell_end(gate, end.job.worker, drawn, &did);
    match did {
        Ok(_) => Ok(true),
        Err(Memory) => Err(Memory),
    }
}

/// A worker does cells until none is left, or memory runs out.
pub fn work_in<W: Wait, C: Hands, R: Recorder<C::Made>, G: Gate>(
    rt: &W,
    end: &mut WorkEnd<C, C::Made, C::Found>,
    plan: &Plan,
    table: &ClaimTable,
    rec: &R,
    gate: &G,
)
    requires plan { IsPlanOf C.reading table.now.table.shared.key (C.job end.old.job.hands)
        plan.now }
    requires begun { Begun table.now.table.shared.table_id table.now.table.shared.key end.old }
    ensures { Worked C.reading table.now.table.shared.table_id table.now.table.shared.key plan.now
        (C.job end.old.job.hands) end.old end.new }
{
    for _ in 0..u64::MAX {
        match turn(rt, end, plan, table, rec, gate) {
            Ok(true) => (),
            Ok(false) => return,
            Err(Memory) => {
                end.fault = Some(EdgeFault::Memory);
                return;
            }
        }
    }
    end.fault = Some(EdgeFault::Memory);
}

fn begin<C, M, F>(alloc: Global, job: Job<C>) -> WorkEnd<C, M, F>
    ensures { (result.job ≡ job) × IsIdle result }
{
    WorkEnd {
        job,
        cells: Vec::new(alloc),
        fault: None,
    }
}

// What the jobs leave before they are worked on.
fn started<C, M, F>(
    alloc: Global,
    mut jobs: Vec<Job<C>>,
    mut ends: Vec<WorkEnd<C, M, F>>,
) -> Vec<WorkEnd<C, M, F>>
    requires room { length jobs.items ≤ vec_capacity ends }
    requires none { ends.items ≡ [] }
    ensures jobs { map job_of result.items ≡ jobs.items }
    ensures idle { All IsIdle result.items }
{
    while let Some(job) = jobs.pop() {
        ends.push_reserved(begin(alloc, job));
    }
    jobs.destroy_empty();
    ends.reverse();
    ends
}

/// Does the cells of a plan on as many threads as there are jobs. On want of memory all jobs come
/// back as they were.
pub fn run_workers<
    W: Threads + Wait + Sync,
    C: Hands + Send,
    R: Recorder<C::Made> + Sync,
    G: Gate + Sync,
>(
    rt: &W,
    alloc: Global,
    jobs: Vec<Job<C>>,
    plan: &Plan,
    table: &ClaimTable,
    rec: &R,
    gate: &G,
) -> Result<Vec<WorkEnd<C, C::Made, C::Found>>, Vec<Job<C>>>
where
    C::Made: Send,
    C::Found: Send,
    requires some { 0 < length jobs.items }
    requires ready { All (IsReady table.now.table.shared.table_id table.now.table.shared.key)
        jobs.items }
    requires plans { All (IsPlanned C.reading C.job table.now.table.shared.key plan.now)
        jobs.items }
    ensures count { IfOk result (λ es. length es.items ≡ length jobs.items) }
    ensures ends { IfOk result (λ es. AllWorked C.reading C.job table.now.table.shared.table_id
        table.now.table.shared.key plan.now jobs.items es.items) }
    ensures back { IfErr result (λ js. js.items ≡ jobs.items) }
{
    let Ok(ends) = Vec::with_capacity(alloc, jobs.len()) else {
        return Err(jobs);
    };
    gate.open(plan.order.len() as u64);
    let mut ends = started(alloc, jobs, ends);
    let threads = ends.len();
    thread::for_each_mut(
        rt,
        ends.as_mut_slice(),
        threads,
        &|_, end: &mut WorkEnd<C, C::Made, C::Found>|
            requires { MayBegin C.reading C.job table.now.table.shared.table_id
                table.now.table.shared.key plan.now end.old }
            ensures { Worked C.reading table.entry.now.table.shared.table_id
                table.entry.now.table.shared.key plan.entry.now
                (C.job end.entry.now.job.hands) end.entry.now end.exit.now }
        { work_in(rt, end, plan, table, rec, gate) },
    );
    Ok(ends)
}

//! The cells of a job, shared among hands: from the table to what all ends say.

ghost use Rattle.std.specs.Prelude.{◌≡◌, ◌<◌, ◌≤◌, ◌^◌, [], All, IfOk, length, map, None, replicate, vec_capacity};
ghost use Rattle.worker_gate.specs.Rounds.{StandByMutant};
ghost use Rattle.worker_gate.specs.Sharing.{MayShare, Shared, IsPlanFor, IsRoomFor, HasCountedNothing, ends_at, hands_in, seat_in};

use crate::drawing::rounds;
use crate::ends::{CellEnd, Job, JobCells, Plan};
use crate::outer::{Gate, Hands, Recorder};
use crate::settled::settle;
use crate::working::run_workers;
use class_model::Memory;
use mt_edge::Meter;
use mutant_table::{ClaimSeat, ClaimTable};
use std::alloc::Global;
use std::sync::Wait;
use std::thread::Threads;

// The plan by which cells are drawn round by round.
fn plan_for(alloc: Global, cells: JobCells) -> Result<Plan, Memory>
    requires { StandByMutant cells.mutants }
    ensures { IfOk result (IsPlanFor cells) }
{
    let order = rounds(alloc, cells.mutants.as_slice())?;
    Ok(Plan {
        mutants: cells.mutants,
        tests: cells.tests,
        order,
        all: cells.all,
    })
}

// Memory for what workers leave.
#[derive(Drop)]
pub struct Room<M, F> {
    pub seats: Vec<ClaimSeat>,
    pub lists: Vec<Vec<(u64, CellEnd<M, F>)>>,
    pub places: Vec<Option<CellEnd<M, F>>>,
    pub ends: Vec<CellEnd<M, F>>,
}

// A place for each of so many cells.
fn no_ends<M: Drop, F: Drop>(
    alloc: Global,
    cells: usize,
) -> Result<Vec<Option<CellEnd<M, F>>>, Memory>
    ensures { IfOk result (λ places. places.items ≡ replicate cells None) }
{
    let mut places = Vec::with_capacity(alloc, cells)?;
    for _ in 0..cells {
        places.push_reserved(None);
    }
    Ok(places)
}

fn room_for<M: Drop, F: Drop>(
    alloc: Global,
    workers: usize,
    cells: usize,
) -> Result<Room<M, F>, Memory>
    ensures { IfOk result (IsRoomFor workers cells) }
{
    let seats = Vec::with_capacity(alloc, workers)?;
    let lists = Vec::with_capacity(alloc, workers)?;
    let ends = Vec::with_capacity(alloc, cells)?;
    let places = no_ends(alloc, cells)?;
    Ok(Room {
        seats,
        lists,
        places,
        ends,
    })
}

// A job for each seat, with hands for each.
fn jobs_of<C: Drop>(
    mut hands: Vec<C>,
    mut seats: Vec<ClaimSeat>,
    mut jobs: Vec<Job<C>>,
    meter: &mut Meter,
) -> Vec<Job<C>>
    requires count { length hands.items ≡ length seats.items }
    requires room { length seats.items ≤ vec_capacity jobs }
    requires none { jobs.items ≡ [] }
    ensures seats { map seat_in result.items ≡ seats.items }
    ensures hands { map hands_in result.items ≡ hands.items }
    ensures idle { All HasCountedNothing result.items }
    ensures meter { meter.new ≡ meter.old }
{
    while let Some(seat) = seats.pop() {
        let Some(own) = hands.pop() else {
            unreachable!()
        };
        let part = meter.split();
        jobs.push_reserved(Job {
            hands: own,
            part,
            seat,
            worker: seats.len() as u64,
        });
    }
    jobs.reverse();
    jobs
}

// Gives back the parts of jobs on which nobody worked.
fn give_back<C: Drop>(mut jobs: Vec<Job<C>>, meter: &mut Meter)
    requires idle { All HasCountedNothing jobs.items }
    requires bound { meter.old < 2 ^ 64 }
    ensures { meter.new ≡ meter.old }
{
    while let Some(job) = jobs.pop() {
        let Job {
            hands: _,
            part,
            seat: _,
            worker: _,
        } = job;
        meter.join(part);
    }
    jobs.destroy_empty();
}

// The ends that stand in their places.
fn ends_at<M: Drop, F: Drop>(
    places: Vec<Option<CellEnd<M, F>>>,
    mut ends: Vec<CellEnd<M, F>>,
) -> Vec<CellEnd<M, F>>
    requires room { length places.items ≤ vec_capacity ends }
    requires none { ends.items ≡ [] }
    ensures { result.items ≡ ends_at places.items }
{
    for place in places {
        if let Some(end) = place {
            ends.push_reserved(end);
        }
    }
    ends
}

/// Shares the cells of a job among hands, one for each worker: on as many threads as there are
/// hands, round by round. What it answers are the ends of all cells, in their order. By these the
/// tests that detect each mutant, and the records of the needed runs, are those of running every
/// covering test on every mutant. The meter rose by what is needed at least, by what all runs cost
/// at most, and with one worker by just what is needed; where memory runs out, by at most what all
/// runs cost for each worker. All memory but that of a worker's own list is taken first.
pub fn share_cells<
    W: Threads + Wait + Sync,
    C: Hands + Send + Drop,
    R: Recorder<C::Made> + Sync,
    G: Gate + Sync,
>(
    rt: &W,
    alloc: Global,
    hands: Vec<C>,
    cells: JobCells,
    rec: &R,
    gate: &G,
    meter: &mut Meter,
) -> Result<Vec<CellEnd<C::Made, C::Found>>, Memory>
where
    C::Made: Send,
    C::Found: Send,
    requires { MayShare C.reading C.job cells hands.items meter.old }
    ensures { Shared C.reading C.job cells hands.items meter.old meter.new result }
{
    let workers = hands.len();
    let mutants = cells.count;
    let plan = plan_for(alloc, cells)?;
    let number = plan.order.len();
    let (table, seats) = ClaimTable::new(alloc, mutants, number as u64, workers as u64)?;
    let Room {
        seats: room_for_seats,
        lists,
        places,
        ends,
    } = room_for(alloc, workers, number)?;
    let jobs = Vec::with_capacity(alloc, workers)?;
    let jobs = jobs_of(hands, seats, jobs, meter);
    match run_workers(rt, alloc, jobs, &plan, &table, rec, gate) {
        Ok(left) => match settle(table, left, room_for_seats, lists, places, meter) {
            Ok(places) => Ok(ends_at(places, ends)),
            Err(Memory) => Err(Memory),
        },
        Err(jobs) => {
            give_back(jobs, meter);
            Err(Memory)
        }
    }
}

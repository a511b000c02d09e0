//! One cell.

ghost use Rattle.std.specs.Prelude.{◌≡◌, ◌<◌, ◌≤◌, ◌+◌, ◌^◌, ◌≢◌, ◌&&◌, IfOk, OnOk, OnErr, Some, None, is_none};
ghost use Rattle.claim_core.specs.Claims.{no_place};
ghost use Rattle.job_rules.specs.Ended.{cost_of_end};
ghost use Rattle.mutant_table.specs.Seats.{IsSeatOf, mutants_of};
ghost use Rattle.worker_gate.specs.Hands.{IsCellOf, Finds, AtMost};
ghost use Rattle.worker_gate.specs.Ends.{ended_of, IsDoneOf, skip_of, detects_so, DidCell, KeepsSeat, StaysBeside, EndsSo, NotesEnd};
ghost use Rattle.mt_edge.specs.declared.outside.EdgeFault.TheVariants.{Memory as NoMemory};

use crate::ends::{CellEnd, WorkEnd};
use crate::outer::{Hands, Recorder};
use class_model::Memory;
use mt_edge::{EdgeFault, MeterPart};
use mutant_table::{ClaimSeat, ClaimTable};
use std::sync::Wait;

// The place by which a cell of this test is skipped.
fn skip_of(all: bool, seen: Option<u64>, test: u64) -> Option<u64>
    ensures { result ≡ skip_of all seen test }
{
    if all {
        return None;
    }
    match seen {
        None => None,
        Some(place) => { if place < test { Some(place) } else { None } }
    }
}

// Whether an end detects the mutant.
fn detects<C: Hands>(end: &CellEnd<C::Made, C::Found>) -> bool
    ensures { result ≡ detects_so C.reading end.now }
{
    match end {
        CellEnd::Ran(made) => C::made_detects(made),
        CellEnd::Reused(found) => C::found_detects(found),
        CellEnd::Skipped(_) => false,
    }
}

// Runs a cell whose run old results don't have, and keeps the record.
fn run_new<W: Wait, C: Hands, R: Recorder<C::Made>>(
    rt: &W,
    hands: &mut C,
    part: &mut MeterPart,
    fault: &mut Option<EdgeFault>,
    mutant: u64,
    test: u64,
    rec: &R,
) -> Result<CellEnd<C::Made, C::Found>, Memory>
    requires cell { IsCellOf (C.job hands.old) mutant test }
    requires room { part.old < 2 ^ 63 }
    requires none { Finds C.reading (C.job hands.old) mutant test None }
    ensures job { C.job hands.new ≡ C.job hands.old }
    ensures done { IfOk result (λ e.
        IsDoneOf (C.job hands.old) mutant test (ended_of C.reading e)) }
    ensures counted { IfOk result (λ e.
        part.new ≡ part.old + cost_of_end C.reading.steps (ended_of C.reading e)) }
    ensures most { AtMost C.reading (C.job hands.old) mutant test part.old part.new }
    ensures fault { fault.old ≢ Some NoMemory → fault.new ≢ Some NoMemory }
{
    let made = hands.run(mutant, test, part)?;
    if rec.keep(rt, &made).is_err() {
        *fault = Some(EdgeFault::Failed);
    }
    Ok(CellEnd::Ran(made))
}

// The end of a cell that isn't skipped: the record that is found, or that of its run.
fn find_or_run<W: Wait, C: Hands, R: Recorder<C::Made>>(
    rt: &W,
    hands: &mut C,
    part: &mut MeterPart,
    fault: &mut Option<EdgeFault>,
    mutant: u64,
    test: u64,
    rec: &R,
) -> Result<CellEnd<C::Made, C::Found>, Memory>
    requires cell { IsCellOf (C.job hands.old) mutant test }
    requires room { part.old < 2 ^ 63 }
    ensures job { C.job hands.new ≡ C.job hands.old }
    ensures done { IfOk result (λ e.
        IsDoneOf (C.job hands.old) mutant test (ended_of C.reading e)) }
    ensures counted { IfOk result (λ e.
        part.new ≡ part.old + cost_of_end C.reading.steps (ended_of C.reading e)) }
    ensures most { AtMost C.reading (C.job hands.old) mutant test part.old part.new }
    ensures fault { fault.old ≢ Some NoMemory → fault.new ≢ Some NoMemory }
{
    match hands.find(mutant, test)? {
        Some(found) => Ok(CellEnd::Reused(found)),
        None => run_new(rt, hands, part, fault, mutant, test, rec),
    }
}

// The end of a cell, by what the worker's look saw.
fn end_of<W: Wait, C: Hands, R: Recorder<C::Made>>(
    rt: &W,
    end: &mut WorkEnd<C, C::Made, C::Found>,
    seen: Option<u64>,
    mutant: u64,
    test: u64,
    all: bool,
    rec: &R,
) -> Result<CellEnd<C::Made, C::Found>, Memory>
    requires cell { IsCellOf (C.job end.old.job.hands) mutant test }
    requires test { test < no_place }
    requires room { end.old.job.part < 2 ^ 63 }
    ensures job { C.job end.new.job.hands ≡ C.job end.old.job.hands }
    ensures same { StaysBeside end.old end.new }
    ensures ended { IfOk result (λ e.
        EndsSo all (C.job end.old.job.hands) mutant test seen (ended_of C.reading e)) }
    ensures counted { IfOk result (λ e.
        end.new.job.part ≡ end.old.job.part + cost_of_end C.reading.steps (ended_of C.reading e)) }
    ensures most { AtMost C.reading (C.job end.old.job.hands) mutant test end.old.job.part
        end.new.job.part }
{
    match skip_of(all, seen, test) {
        Some(place) => Ok(CellEnd::Skipped(place)),
        None => find_or_run(
            rt,
            &mut end.job.hands,
            &mut end.job.part,
            &mut end.fault,
            mutant,
            test,
            rec,
        ),
    }
}

// Tells the table where the cell's test detects the mutant.
fn note_end<C: Hands>(
    table: &ClaimTable,
    seat: &mut ClaimSeat,
    mutant: u64,
    test: u64,
    ended: &CellEnd<C::Made, C::Found>,
)
    requires seat { IsSeatOf table.now seat.old }
    requires mutant { mutant < mutants_of table.now }
    requires test { test < no_place }
    ensures seat { KeepsSeat table.now.table.shared.table_id table.now.table.shared.key
        seat.old seat.new }
    ensures noted { NotesEnd C.reading mutant test ended.now seat.old seat.new }
{
    if detects::<C>(ended) {
        table.detect(seat, mutant, test);
    }
}

// Whether a cell is the first that is seen to detect its mutant.
fn detects_first<C: Hands>(seen: Option<u64>, end: &CellEnd<C::Made, C::Found>) -> bool
    ensures { result ≡ is_none seen && detects_so C.reading end.now }
{
    match seen {
        None => detects::<C>(end),
        Some(_) => false,
    }
}

// One cell, whose number the worker drew: whether it is the first that is seen to detect its
// mutant, which is for the gate and in no clause.
pub fn do_cell<W: Wait, C: Hands, R: Recorder<C::Made>>(
    rt: &W,
    end: &mut WorkEnd<C, C::Made, C::Found>,
    number: u64,
    mutant: u64,
    test: u64,
    all: bool,
    table: &ClaimTable,
    rec: &R,
) -> Result<bool, Memory>
    requires seat { IsSeatOf table.now end.old.job.seat }
    requires mutant { mutant < mutants_of table.now }
    requires test { test < no_place }
    requires cell { IsCellOf (C.job end.old.job.hands) mutant test }
    requires room { end.old.job.part < 2 ^ 63 }
    ensures job { C.job end.new.job.hands ≡ C.job end.old.job.hands }
    ensures worker { end.new.job.worker ≡ end.old.job.worker }
    ensures seat { KeepsSeat table.now.table.shared.table_id table.now.table.shared.key
        end.old.job.seat end.new.job.seat }
    ensures most { AtMost C.reading (C.job end.old.job.hands) mutant test end.old.job.part
        end.new.job.part }
    ensures did { OnOk result
        (DidCell C.reading all (C.job end.old.job.hands) number mutant test end.old end.new) }
    ensures fault { end.old.fault ≢ Some NoMemory → end.new.fault ≢ Some NoMemory }
{
    end.cells.reserve(1)?;
    let seen = table.look(&mut end.job.seat, mutant);
    let ended = end_of(rt, end, seen, mutant, test, all, rec)?;
    let first = detects_first::<C>(seen, &ended);
    note_end::<C>(table, &mut end.job.seat, mutant, test, &ended);
    end.cells.push_reserved((number, ended));
    Ok(first)
}

//! Six mutants and two tests, worked out by hand: how cells end, what they cost, that threads share
//! them.

ghost use Rattle.std.specs.Prelude.{◌≡◌};

use crate::gates::HeldGate;
use crate::hands::count;
use crate::jobs::{RowEnds, do_rows};
use mt_edge::{Meter, OpenGate};
use std::test::Fail;
use worker_gate::CellEnd;

// The first test that detects each mutant.
const FIRST: [Option<u64>; 6] = [Some(1), Some(0), Some(0), None, None, Some(1)];

// What both tests' runs on the program as it is cost.
const ORIGINAL: u32 = 30;

// What these cost with the needed runs on mutants, and with all.
const LEAST: u64 = 188;

const MOST: u64 = 218;

// Numbers of workers.
const WORKERS: [u64; 4] = [1, 2, 8, 64];

// A meter behind the runs on the program as it is.
fn metered() -> Meter
    ensures { result ≡ 30 }
{
    let mut meter = Meter::new();
    let mut part = meter.split();
    count(&mut part, ORIGINAL);
    meter.join(part);
    meter
}

fn state_at(ends: &RowEnds, cell: usize) -> Option<u64> {
    match ends.get(cell) {
        Some(CellEnd::Ran(made)) => made.state,
        Some(CellEnd::Reused(found)) => found.state,
        Some(CellEnd::Skipped(_)) => None,
        None => None,
    }
}

fn first_detecting(ends: &RowEnds, mutant: u8) -> Option<u64> {
    let cell = usize::from(mutant) * 2;
    if state_at(ends, cell).is_some() {
        return Some(0);
    }
    if state_at(ends, cell + 1).is_some() {
        return Some(1);
    }
    None
}

fn detects_alike(ends: &RowEnds) -> bool {
    for mutant in 0..6u8 {
        if first_detecting(ends, mutant) != FIRST[usize::from(mutant)] {
            return false;
        }
    }
    true
}

// How many cells were executed.
fn executed(ends: &RowEnds) -> u64 {
    let mut number = 0u64;
    for end in ends {
        if let CellEnd::Ran(_) = end {
            number = number.saturating_add(1);
        }
    }
    number
}

#[test]
fn one_worker_runs_what_is_needed(rt: HostRuntime) -> Result<(), Fail> {
    let mut meter = metered();
    let ends = do_rows(
        &rt,
        rt.alloc(),
        1,
        false,
        None,
        false,
        &OpenGate,
        &mut meter,
    )?;
    assert!(rt; detects_alike(&ends));
    assert_eq!(rt; executed(&ends), 10);
    assert_eq!(rt; meter.count(), LEAST);
    Ok(())
}

#[test]
fn workers_detect_alike(rt: HostRuntime) -> Result<(), Fail> {
    for workers in WORKERS {
        let mut meter = metered();
        let ends = do_rows(
            &rt,
            rt.alloc(),
            workers,
            false,
            None,
            false,
            &OpenGate,
            &mut meter,
        )?;
        assert!(rt; detects_alike(&ends), "{workers} workers");
        assert!(rt;
            LEAST <= meter.count() && meter.count() <= MOST,
            "{workers} workers"
        );
    }
    Ok(())
}

#[test]
fn all_detections_take_all_runs(rt: HostRuntime) -> Result<(), Fail> {
    for workers in WORKERS {
        let mut meter = metered();
        let ends = do_rows(
            &rt,
            rt.alloc(),
            workers,
            false,
            None,
            true,
            &OpenGate,
            &mut meter,
        )?;
        assert_eq!(rt; executed(&ends), 12, "{workers} workers");
        assert_eq!(rt; meter.count(), MOST, "{workers} workers");

        // Both tests detect the second mutant.
        assert_eq!(rt; state_at(&ends, 2), Some(1));
        assert_eq!(rt; state_at(&ends, 3), Some(1));
    }
    Ok(())
}

#[test]
fn found_runs_are_not_made(rt: HostRuntime) -> Result<(), Fail> {
    let mut meter = metered();
    let ends = do_rows(&rt, rt.alloc(), 2, true, None, false, &OpenGate, &mut meter)?;
    assert!(rt; detects_alike(&ends));
    assert_eq!(rt; executed(&ends), 0);
    assert_eq!(rt; meter.count(), u64::from(ORIGINAL));
    Ok(())
}

#[test]
fn memory_that_runs_out_in_a_run_is_told(rt: HostRuntime) -> Result<(), Fail> {
    for workers in WORKERS {
        let mut meter = metered();
        let ends = do_rows(
            &rt,
            rt.alloc(),
            workers,
            false,
            Some(2),
            false,
            &OpenGate,
            &mut meter,
        );
        assert!(rt; ends.is_err(), "{workers} workers");
        assert!(rt; meter.count() <= MOST, "{workers} workers");
    }
    Ok(())
}

#[test]
fn cells_are_shared_among_threads(rt: HostRuntime) -> Result<(), Fail> {
    let gate = HeldGate::new();
    let mut meter = metered();
    let ends = do_rows(&rt, rt.alloc(), 2, false, None, false, &gate, &mut meter)?;
    assert!(rt; !gate.is_late());
    assert_eq!(rt; gate.opened(), 12);
    assert_eq!(rt; gate.ended(), 12);
    assert_eq!(rt; gate.detected(), 4);
    assert!(rt; detects_alike(&ends));
    Ok(())
}

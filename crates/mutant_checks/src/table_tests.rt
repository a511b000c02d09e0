ghost use Rattle.std.specs.Prelude.{◌≡◌, ◌<◌};
ghost use Rattle.mutant_table.specs.Seats.{AreSeats, IsSeatOf, mutants_of, worker_of};

use mutant_table::{ClaimSeat, ClaimTable};
use std::sync::atomic::{AtomicU64, Ordering};
use std::test::Fail;
use std::thread;
use std::thread::Threads;

// Two mutants, three cells and two workers, one after another.
#[test]
fn three_cells_are_claimed(rt: HostRuntime) -> Result<(), Fail> {
    let (table, mut seats) = ClaimTable::new(rt.alloc(), 2, 3, 2)?;
    let mut second = seats.remove(1);
    let mut first = seats.remove(0);
    assert_eq!(rt; table.claim(&mut first), Some(0));
    assert_eq!(rt; table.claim(&mut second), Some(1));
    assert_eq!(rt; table.look(&mut first, 0), None);
    table.detect(&mut second, 0, 1);
    table.detect(&mut first, 0, 2);
    assert_eq!(rt; table.look(&mut first, 0), Some(1));
    assert_eq!(rt; table.claim(&mut first), Some(2));
    assert_eq!(rt; table.claim(&mut second), None);
    assert_eq!(rt; table.claim(&mut second), None);
    Ok(())
}

const CELLS: u64 = 100_000;

// Draws until no cell is left, counts each cell that it draws, and detects mutant 0 at a place of 3
// or more.
fn draw_all(table: &ClaimTable, seat: &mut ClaimSeat, drawn: &[AtomicU64])
    requires seat { IsSeatOf table.now seat.old }
    requires mutant { 0 < mutants_of table.now }
    ensures seat { IsSeatOf table.now seat.new }
    ensures worker { worker_of seat.new ≡ worker_of seat.old }
{
    for _ in 0..u64::MAX {
        let Some(cell) = table.claim(seat) else {
            return;
        };
        if let Some(times) = drawn.get(cell as usize) {
            times.fetch_add(1, Ordering::SeqCst);
        }
        table.detect(seat, 0, 3 + cell % 7);
    }
}

fn share<R: Threads + Sync>(
    rt: &R,
    table: &ClaimTable,
    seats: &mut [ClaimSeat],
    drawn: &[AtomicU64],
)
    requires seats { AreSeats table.now seats.old }
    requires mutant { 0 < mutants_of table.now }
    ensures { AreSeats table.now seats.new }
{
    thread::for_each_mut(
        rt,
        seats,
        4,
        &|_, seat: &mut ClaimSeat|
            requires seat { IsSeatOf table.now seat.old }
            requires mutant { 0 < mutants_of table.now }
            ensures seat { IsSeatOf table.entry.now seat.exit.now }
            ensures worker { worker_of seat.exit.now ≡ worker_of seat.entry.now }
        { draw_all(table, seat, drawn) },
    );
}

#[test]
fn four_threads_draw_each_cell_once(rt: HostRuntime) -> Result<(), Fail> {
    let (table, mut seats) = ClaimTable::new(rt.alloc(), 2, CELLS, 4)?;
    let mut drawn = Vec::new(rt.alloc());
    for _ in 0..CELLS {
        drawn.push(AtomicU64::new(0))?;
    }
    share(&rt, &table, &mut seats, &drawn);
    for times in &drawn {
        assert_eq!(rt; times.load(Ordering::SeqCst), 1);
    }
    // Each thread drew one number past the cells.
    let Ok(end) = table.close(seats) else {
        panic!(rt; "no memory")
    };
    assert_eq!(rt; end.next, CELLS + 4);
    assert_eq!(rt; end.least.as_slice(), [3, 65535].as_slice());
    Ok(())
}

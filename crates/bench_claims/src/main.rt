//! Workers that draw cells from a claim table until none is left. With two words, the numbers of
//! threads and of cells, it prints how many nanoseconds that took; with none, the number that would
//! be drawn next.
#![tactic(auto)]

ghost use Rattle.std.specs.Prelude.{◌≡◌};
ghost use Rattle.mutant_table.specs.Seats.{AreSeats, IsSeatOf, worker_of};

use mutant_table::{ClaimSeat, ClaimTable};
use std::thread::Threads;
use std::time::Instant;
use std::{env, thread};

fn draw_all(table: &ClaimTable, seat: &mut ClaimSeat)
    requires { IsSeatOf table.now seat.old }
    ensures seat { IsSeatOf table.now seat.new }
    ensures worker { worker_of seat.new ≡ worker_of seat.old }
{
    for _ in 0..u64::MAX {
        if table.claim(seat).is_none() {
            return;
        }
    }
}

fn share<R: Threads + Sync>(rt: &R, table: &ClaimTable, seats: &mut [ClaimSeat])
    requires { AreSeats table.now seats.old }
    ensures { AreSeats table.now seats.new }
{
    let threads = seats.len();
    thread::for_each_mut(
        rt,
        seats,
        threads,
        &|_, seat: &mut ClaimSeat|
            requires { IsSeatOf table.now seat.old }
            ensures seat { IsSeatOf table.entry.now seat.exit.now }
            ensures worker { worker_of seat.exit.now ≡ worker_of seat.entry.now }
        { draw_all(table, seat) },
    );
}

fn main(rt: HostRuntime) -> anyhow::Result<()> {
    let mut words = env::args(&rt)?.skip(1);
    let (threads, cells, timed) = match (words.next(), words.next()) {
        (Some(threads), Some(cells)) => (threads.parse::<u32>()?, cells.parse::<u32>()?, true),
        _ => (2, 1000, false),
    };
    let threads = u64::from(threads).max(1);
    let (table, mut seats) = ClaimTable::new(rt.alloc(), 1, u64::from(cells), threads)?;
    let start = Instant::now(&rt)?;
    share(&rt, &table, &mut seats);
    let nanoseconds = start.elapsed(&rt)?.as_nanos();
    let Ok(end) = table.close(seats) else {
        anyhow::bail!("no memory");
    };
    if timed {
        println!(rt; "{nanoseconds}")?;
    } else {
        println!(rt; "next {}", end.next)?;
    }
    Ok(())
}

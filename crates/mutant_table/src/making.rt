ghost use Rattle.std.specs.Prelude.{◌≡◌, ◌<◌, ◌^◌, ◌+◌, ◌∷◌, [], All, IfOk, replicate};
ghost use Rattle.claim_core.specs.Claims.{no_place};
ghost use Rattle.mutant_table.specs.Seats.{AreMadeSeats, AreSeats, HasSizes, IsFirstSeat, entries_of};

use crate::rule::{Seating, Sizes, View};
use crate::seat::ClaimSeat;
use crate::table::{ClaimTable, NO_PLACE, Words};
use atomic_table::{Seat, Table};
use class_model::Memory;
use std::alloc::Global;

impl ClaimTable {
    /// A table at which nothing is drawn and nothing detected, and its seats, in the order of their
    /// numbers.
    pub fn new(
        alloc: Global,
        mutants: u64,
        cells: u64,
        workers: u64,
    ) -> Result<(ClaimTable, Vec<ClaimSeat>), Memory>
        requires some { 0 < workers }
        requires few { mutants < 2 ^ 32 }
        requires room { cells + workers < 2 ^ 64 }
        ensures sizes { IfOk result (λ made. HasSizes mutants cells workers made.0) }
        ensures seats { IfOk result (λ made. AreSeats made.0 made.1.items) }
        ensures idle { IfOk result (λ made. All (λ seat. entries_of seat ≡ []) made.1.items) }
    {
        let words = first_words(alloc, mutants)?;
        let sizes = Sizes {
            mutants,
            cells,
            workers,
        };
        let seats = Vec::with_capacity(alloc, workers as usize)?;
        let (table, first) = Table::of_words(alloc, words.as_slice(), &sizes)?;
        let seats = seated(&table, seats, first, workers)?;
        let table = ClaimTable {
            alloc,
            table,
            mutants,
            cells,
        };
        Ok((table, seats))
    }
}

// No number is drawn, and no place detected.
fn first_words(alloc: Global, mutants: u64) -> Result<Vec<u64>, Memory>
    requires { mutants < 2 ^ 32 }
    ensures { IfOk result (λ words. words.items ≡ 0 ∷ replicate mutants no_place) }
{
    let mut words = vec![in alloc; NO_PLACE; mutants as usize + 1]?;
    words[0] = 0;
    Ok(words)
}

// Seats for all workers but the first, behind the first.
fn seated(
    table: &Words,
    mut seats: Vec<ClaimSeat>,
    mut first: Seat<u8, View>,
    workers: u64,
) -> Result<Vec<ClaimSeat>, Memory>
    requires none { seats.items ≡ [] }
    requires first { IsFirstSeat table.now.shared.table_id table.now.shared.key first }
    requires workers { (table.now.shared.key.workers ≡ workers) × (0 < workers) }
    requires words { 0 < table.now.shared.table_id.words }
    ensures seats { IfOk result (AreMadeSeats table.now.shared.table_id table.now.shared.key) }
    ensures idle { IfOk result (λ made. All (λ seat. entries_of seat ≡ []) made.items) }
{
    for _ in 1..workers {
        let seat = table.shared.split_seat::<Seating>(&mut first);
        seats.push(ClaimSeat::new(seat))?;
    }
    seats.insert(0, ClaimSeat::new(first))?;
    Ok(seats)
}

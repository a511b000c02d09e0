//! The table under threads.

ghost use Rattle.std.specs.Prelude.{◌≡◌, ◌↔◌, ◌<◌, ◌+◌, ◌^◌, [], All, IfOk, IfErr, IfSome, IfNone, IsNone, length};
ghost use Rattle.claim_core.specs.declared.events.ClaimEntry.TheVariants.{Looked, Detected};
ghost use Rattle.claim_core.specs.Claims.{no_place};
ghost use Rattle.mutant_table.specs.Drawing.{Draws, DrawsNoCell, HasRunOut, IsAtMostDetected, Notes, SeesPlace, StaysOrAgrees};
ghost use Rattle.mutant_table.specs.Entries.{ListAgrees};
ghost use Rattle.mutant_table.specs.Seats.{AgreesAtEnd, AreSeats, HasSizes, IsSeatOf, cells_of, entries_of, mutants_of, worker_of};

use class_model::Memory;
use mutant_table::{ClaimEnd, ClaimSeat, ClaimTable};
use std::alloc::Global;

/// `ClaimTable::new`.
pub fn new_table(
    alloc: Global,
    mutants: u64,
    cells: u64,
    workers: u64,
) -> Result<(ClaimTable, Vec<ClaimSeat>), Memory>
    requires some { 0 < workers }
    requires few { mutants < 2 ^ 32 }
    requires room { cells + workers < 2 ^ 64 }
    ensures sizes { IfOk result (λ made. HasSizes mutants cells workers made.0) }
    ensures seats { IfOk result (λ made. AreSeats made.0 made.1.items) }
    ensures idle { IfOk result (λ made. All (λ seat. entries_of seat ≡ []) made.1.items) }
{
    ClaimTable::new(alloc, mutants, cells, workers)
}

/// `ClaimTable::claim`.
pub fn claim(table: &ClaimTable, seat: &mut ClaimSeat) -> Option<u64>
    requires { IsSeatOf table.now seat.old }
    ensures seat { IsSeatOf table.now seat.new }
    ensures worker { worker_of seat.new ≡ worker_of seat.old }
    ensures none { IsNone result ↔ HasRunOut table.now seat.new }
    ensures cell { IfSome result (Draws table.now seat.old seat.new) }
    ensures ran_out { IfNone result (DrawsNoCell table.now seat.old seat.new) }
    ensures list { StaysOrAgrees table.now seat.old seat.new }
{
    table.claim(seat)
}

/// `ClaimTable::look`.
pub fn look(table: &ClaimTable, seat: &mut ClaimSeat, mutant: u64) -> Option<u64>
    requires seat { IsSeatOf table.now seat.old }
    requires mutant { mutant < mutants_of table.now }
    ensures seat { IsSeatOf table.now seat.new }
    ensures worker { worker_of seat.new ≡ worker_of seat.old }
    ensures place { IfSome result (SeesPlace mutant seat.old seat.new) }
    ensures none { IfNone result (Notes (Looked mutant no_place) seat.old seat.new) }
    ensures list { ListAgrees (cells_of table.now) (entries_of seat.new) }
    ensures fresh { IsAtMostDetected seat.old mutant result }
{
    table.look(seat, mutant)
}

/// `ClaimTable::detect`.
pub fn detect(table: &ClaimTable, seat: &mut ClaimSeat, mutant: u64, place: u64)
    requires seat { IsSeatOf table.now seat.old }
    requires mutant { mutant < mutants_of table.now }
    requires place { place < no_place }
    ensures seat { IsSeatOf table.now seat.new }
    ensures worker { worker_of seat.new ≡ worker_of seat.old }
    ensures detected { Notes (Detected mutant place) seat.old seat.new }
    ensures list { ListAgrees (cells_of table.now) (entries_of seat.new) }
{
    table.detect(seat, mutant, place);
}

/// `ClaimTable::close`.
pub fn close(
    table: ClaimTable,
    seats: Vec<ClaimSeat>,
) -> Result<ClaimEnd, (ClaimTable, Vec<ClaimSeat>)>
    requires { AreSeats table seats.items }
    ensures agree { IfOk result (AgreesAtEnd table seats.items) }
    ensures mutants { IfOk result (λ end. length end.least ≡ mutants_of table) }
    ensures back { IfErr result (λ all. (all.0 ≡ table) × (all.1 ≡ seats)) }
{
    table.close(seats)
}

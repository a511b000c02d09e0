ghost use Rattle.std.specs.Prelude.{◌≡◌, ◌↔◌, ◌<◌, IfSome, IfNone, IsNone};
ghost use Rattle.claim_core.specs.declared.events.ClaimEntry.TheVariants.{Looked, Detected};
ghost use Rattle.claim_core.specs.Claims.{no_place};
ghost use Rattle.mutant_table.specs.Entries.{ListAgrees};
ghost use Rattle.mutant_table.specs.Drawing.{Draws, DrawsNoCell, HasRunOut, IsAtMostDetected, Notes, SeesPlace, StaysOrAgrees};
ghost use Rattle.mutant_table.specs.Seats.{IsSeatOf, cells_of, entries_of, mutants_of, worker_of};

use crate::rule::{Claiming, Detecting, Looking};
use crate::seat::ClaimSeat;
use crate::table::{ClaimTable, NO_PLACE};

impl ClaimTable {
    /// Draws the next number. None where it is at or past the cells, or where this worker drew such
    /// a number before: then it draws no more.
    pub fn claim(&self, seat: &mut ClaimSeat) -> Option<u64>
        requires { IsSeatOf self.now seat.old }
        ensures seat { IsSeatOf self.now seat.new }
        ensures worker { worker_of seat.new ≡ worker_of seat.old }
        ensures none { IsNone result ↔ HasRunOut self.now seat.new }

        // The list grew by the drawn number, or stayed where no number was drawn.
        ensures cell { IfSome result (Draws self.now seat.old seat.new) }
        ensures ran_out { IfNone result (DrawsNoCell self.now seat.old seat.new) }
        ensures list { StaysOrAgrees self.now seat.old seat.new }
    {
        if seat.drained {
            return None;
        }
        let number = self
            .table
            .shared
            .fetch_add::<Claiming>(&mut seat.seat, 0, 1);
        if number < self.cells {
            return Some(number);
        }
        seat.drained = true;
        None
    }

    /// The least place at which any worker has detected the mutant so far.
    pub fn look(&self, seat: &mut ClaimSeat, mutant: u64) -> Option<u64>
        requires seat { IsSeatOf self.now seat.old }
        requires mutant { mutant < mutants_of self.now }
        ensures seat { IsSeatOf self.now seat.new }
        ensures worker { worker_of seat.new ≡ worker_of seat.old }
        ensures place { IfSome result (SeesPlace mutant seat.old seat.new) }
        ensures none { IfNone result (Notes (Looked mutant no_place) seat.old seat.new) }
        ensures list { ListAgrees (cells_of self.now) (entries_of seat.new) }

        // It is at most every place at which this worker detected the mutant before.
        ensures fresh { IsAtMostDetected seat.old mutant result }
    {
        let place = self
            .table
            .shared
            .load::<Looking>(&mut seat.seat, mutant as usize + 1);
        if place == NO_PLACE { None } else { Some(place) }
    }

    /// Tells that the test at the place detects the mutant.
    pub fn detect(&self, seat: &mut ClaimSeat, mutant: u64, place: u64)
        requires seat { IsSeatOf self.now seat.old }
        requires mutant { mutant < mutants_of self.now }
        requires place { place < no_place }
        ensures seat { IsSeatOf self.now seat.new }
        ensures worker { worker_of seat.new ≡ worker_of seat.old }
        ensures detected { Notes (Detected mutant place) seat.old seat.new }
        ensures list { ListAgrees (cells_of self.now) (entries_of seat.new) }
    {
        self.table
            .shared
            .fetch_min::<Detecting>(&mut seat.seat, mutant as usize + 1, place);
    }
}

ghost use Rattle.std.specs.Prelude.{◌≡◌, ◌<◌, IfOk, IfErr, length};
ghost use Rattle.mutant_table.specs.Seats.{AgreesAtEnd, AreSeats, AreSeatsAt, IsGathered, mutants_of};

use crate::rule::{Seating, View};
use crate::seat::ClaimSeat;
use crate::table::{ClaimEnd, ClaimTable, Words};
use atomic_table::Seat;
use class_model::Seq;

impl ClaimTable {
    /// What the words say at the end, with the lists of the seats: one state in which the claims
    /// agree. On want of memory all comes back.
    pub fn close(self, seats: Vec<ClaimSeat>) -> Result<ClaimEnd, (ClaimTable, Vec<ClaimSeat>)>
        requires { AreSeats self seats.items }
        ensures agree { IfOk result (AgreesAtEnd self seats.items) }
        ensures mutants { IfOk result (λ end. length end.least ≡ mutants_of self) }
        ensures back { IfErr result (λ all. (all.0 ≡ self) × (all.1 ≡ seats)) }
    {
        let Ok(mut least) = Vec::with_capacity(self.alloc, self.mutants as usize) else {
            return Err((self, seats));
        };
        let ClaimTable {
            alloc: _,
            table,
            mutants,
            cells: _,
        } = self;
        let host = gathered(&table, seats);
        let closed = table.close_with(host);
        let next = closed.word(0);
        for mutant in 0..mutants as usize {
            least.push_reserved(closed.word(mutant + 1));
        }
        closed.free();
        Ok(ClaimEnd {
            next,
            least: Seq::from_vec(least),
        })
    }
}

// The first seat, which has taken in all others.
fn gathered(table: &Words, mut seats: Vec<ClaimSeat>) -> Seat<u8, View>
    requires some { 0 < table.now.shared.key.workers }
    requires words { 0 < table.now.shared.table_id.words }
    requires seats { AreSeatsAt table.now.shared.table_id table.now.shared.key seats.items }
    ensures table { result.table_id ≡ table.now.shared.table_id }
    ensures view { IsGathered table.now.shared.key seats.items result.me.0 }
{
    let mut host = seats.remove(0).into_seat();
    for seat in seats {
        table
            .shared
            .join_seat::<Seating>(&mut host, seat.into_seat());
    }
    host
}

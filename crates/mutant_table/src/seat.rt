ghost use Rattle.std.specs.Prelude.{◌≡◌, [], true};
ghost use Rattle.claim_core.specs.Claims.{is_exhausted};

use crate::rule::View;
use atomic_table::Seat;

/// A worker's seat at a claim table. At run time it keeps only whether the worker drew a number at
/// or past the cells.
#[derive(Drop)]
pub struct ClaimSeat {
    pub(crate) seat: Seat<u8, View>,
    pub(crate) drained: bool,
    pub ghost live: { seat.me.0.live ≡ true },
    pub ghost drained_is: { drained ≡ is_exhausted seat.me.0.cells seat.me.0.entries },
}

impl ClaimSeat {
    pub(crate) fn new(seat: Seat<u8, View>) -> ClaimSeat
        requires live { seat.me.0.live ≡ true }
        requires idle { seat.me.0.entries ≡ [] }
        ensures { result.seat ≡ seat }
    {
        ClaimSeat {
            seat,
            drained: false,
        }
    }

    pub(crate) fn into_seat(self) -> Seat<u8, View>
        ensures same { result ≡ self.seat }
        ensures live { result.me.0.live ≡ true }
    {
        let ClaimSeat { seat, drained: _ } = self;
        seat
    }
}

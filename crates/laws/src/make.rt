ghost use Rattle.std.specs.Prelude.{◌≡◌, slice_index_or};
ghost use Rattle.seats.specs.Seats.{away};
ghost use Rattle.lock.specs.Locks.{SameLoans, state_in};
ghost use Rattle.laws.specs.Runs.{Gets};

use crate::call::{Call, Got};
use layout::SeatId;
use lock::Lock;
use seats::Seat;
use store::Store;

// Makes one call, and notes what it got.
#[tactic(auto, unfolding(crate::specs::Runs::performed))]
pub(crate) fn make<S: Store>(lock: &mut Lock<'_, S>, call: Call) -> Got
    ensures gets { Gets call (state_in S.words lock.old) result (state_in S.words lock.new) }
    ensures loans { SameLoans lock.old lock.new }
{
    let answer = call.make(lock);
    let seat = record_of(lock, call.seat());
    Got { answer, seat }
}

// The record of a seat, an away one where there is no such seat.
fn record_of<S>(lock: &Lock<'_, S>, seat: SeatId) -> Seat
    ensures { result ≡ slice_index_or lock.now.table.now seat.0 away }
{
    lock.table
        .get(usize::from(seat.0))
        .copied()
        .unwrap_or(Seat::away())
}

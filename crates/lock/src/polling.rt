ghost use Rattle.layout.specs.Refusals.{told_as};
ghost use Rattle.seats.specs.Places.{state_number};
ghost use Rattle.lock.specs.Calls.{polled};
ghost use Rattle.lock.specs.Locks.{SameLoans, state_in};
ghost use Rattle.lock.specs.States.{Settles};

use crate::locks::Lock;
use layout::{BoxFault, Passage, SeatId};
use seats::State;
use steps::poll_seat;
use store::Store;

impl<S: Store> Lock<'_, S> {
    // A poll: does the step of the seat's place, and answers the state afterwards. The coin is a byte and no enum, since
    // any may come, and one that is not 0, 1 or 2 is refused.
    pub fn poll(&mut self, seat: SeatId, passage: Passage, coin: u8) -> Result<State, BoxFault>
        ensures settles { Settles (polled (state_in S.words self.old) seat.0 passage.0 coin) (told_as state_number result) (state_in S.words self.new) }
        ensures loans { SameLoans self.old self.new }
    {
        let path = self.reach(seat)?;
        let found = &mut self.table[usize::from(seat.0)];
        poll_seat(self.store, found, path, passage, coin)
    }
}

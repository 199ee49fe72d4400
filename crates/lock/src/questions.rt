ghost use Rattle.std.specs.Prelude.{◌≡◌, ◌<◌, ◌≤◌, length, Some, None, IfOk, MatchResult};
ghost use Rattle.layout.specs.Refusals.{refusal_of};
ghost use Rattle.seats.specs.Places.{state_number};
ghost use Rattle.lock.specs.Locks.{state_in};
ghost use Rattle.lock.specs.Questions.{Entered, reach_refusal, enter_refusal, own_refusal, holder_refusal};
ghost use Rattle.lock.specs.States.{seat_at};

use crate::locks::Lock;
use layout::{BoxFault, Passage, Path, SeatId};
use seats::{Seat, State};
use store::Store;

// Seat and passage come as two, here and in the calls, as a message has them.
impl<S: Store> Lock<'_, S> {
    // Questions 2 to 4: the store has all the cells, the table all the seats, and the seat is one of them.
    pub(crate) fn reach(&self, seat: SeatId) -> Result<Path, BoxFault>
        ensures { MatchResult result (λ p. (reach_refusal self.now.record.now.ways.number (length self.now.table.now) (length (S.words self.now.store.now)) seat.0 ≡ None) × (p.ways ≡ self.now.record.now.ways) × (p.seat ≡ seat) × (seat.0 < length self.now.table.now)) (λ e. reach_refusal self.now.record.now.ways.number (length self.now.table.now) (length (S.words self.now.store.now)) seat.0 ≡ Some (refusal_of e)) }
    {
        if self.store.size() < self.record.cells() {
            return Err(BoxFault::FewCells(seat));
        }
        if self.table.len() < self.record.seats() {
            return Err(BoxFault::FewSeats(seat));
        }
        self.record.path(seat).ok_or(BoxFault::NoSeat(seat))
    }

    // Questions 2 to 5: the seat's record is lawful too. Answers a copy of it.
    #[tactic(auto, using(std::proofs::lemmas::List::get_or_default), unfolding(crate::specs::Questions::enter_refusal))]
    pub(crate) fn enter(&self, seat: SeatId) -> Result<Seat, BoxFault>
        ensures { Entered (enter_refusal (state_in S.words self.now) seat.0) (state_in S.words self.now) seat.0 result }
    {
        self.reach(seat)?;
        let found = self.table[usize::from(seat.0)];
        if !found.lawful(self.record.ways()) {
            return Err(BoxFault::Unlawful(seat));
        }
        Ok(found)
    }

    // Questions 2 to 6: the seat takes part, and the passage is its own. Answers a copy of its record. A poll of one seat
    // asks the same by itself, so that it needs no lock.
    pub(crate) fn enter_own(&self, seat: SeatId, passage: Passage) -> Result<Seat, BoxFault>
        ensures { Entered (own_refusal (state_in S.words self.now) seat.0 passage.0) (state_in S.words self.now) seat.0 result }
    {
        let found = self.enter(seat)?;
        if found.state == State::Away || found.passage != passage {
            return Err(BoxFault::Foreign(seat));
        }
        Ok(found)
    }

    // Questions 2 to 7 of a leave and of a publish: the seat holds the right. Answers a copy of its record.
    pub(crate) fn enter_holding(&self, seat: SeatId, passage: Passage) -> Result<Seat, BoxFault>
        ensures entered { Entered (holder_refusal (state_in S.words self.now) seat.0 passage.0) (state_in S.words self.now) seat.0 result }
        ensures holding { IfOk result (λ s. state_number s.state ≡ 2) }
    {
        let found = self.enter_own(seat, passage)?;
        if found.state != State::Holding {
            return Err(BoxFault::WrongState(seat));
        }
        Ok(found)
    }
}

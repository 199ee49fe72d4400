ghost use Rattle.std.specs.Prelude.{◌≡◌};
ghost use Rattle.layout.specs.Refusals.{told_as};
ghost use Rattle.seats.specs.Places.{state_number};
ghost use Rattle.lock.specs.Calls.{applied, climber, gave_up_outcome, given_up, left, looked, published};
ghost use Rattle.lock.specs.Locks.{SameLoans, state_in};
ghost use Rattle.lock.specs.States.{Settles};

use crate::locks::Lock;
use layout::{BoxFault, Passage, SeatId};
use seats::{Place, Seat, State};
use store::Store;

// What a look sees of a seat.
#[derive(Clone, Copy)]
pub struct View {
    pub state: State,
    pub top: u8,
}

impl<S: Store> Lock<'_, S> {
    // An application: an away seat gets the next number as its passage, and begins to climb.
    pub fn apply(&mut self, seat: SeatId) -> Result<Passage, BoxFault>
        ensures settles { Settles (applied (state_in S.words self.old) seat.0) (told_as (λ n. n.0) result) (state_in S.words self.new) }
        ensures loans { SameLoans self.old self.new }
    {
        let found = self.enter(seat)?;
        if found.state != State::Away {
            return Err(BoxFault::WrongState(seat));
        }
        let passage = self.record.issue().ok_or(BoxFault::Spent(seat))?;
        self.table[usize::from(seat.0)] = begin(passage);
        Ok(passage)
    }

    // A give-up: a climbing seat no longer wants the right, and is soon out. Answers the state afterwards.
    pub fn give_up(&mut self, seat: SeatId, passage: Passage) -> Result<State, BoxFault>
        ensures settles { Settles (gave_up_outcome (state_in S.words self.old) seat.0 passage.0) (told_as state_number result) (state_in S.words self.new) }
        ensures loans { SameLoans self.old self.new }
    {
        let found = self.enter_own(seat, passage)?;
        if found.state != State::Climbing || found.gave_up {
            return Err(BoxFault::WrongState(seat));
        }
        let after = abandon(found);
        self.table[usize::from(seat.0)] = after;
        Ok(after.state)
    }

    // A leave: the holder gives the right back, gate by gate. Answers the state afterwards.
    pub fn leave(&mut self, seat: SeatId, passage: Passage) -> Result<State, BoxFault>
        ensures settles { Settles (left (state_in S.words self.old) seat.0 passage.0) (told_as state_number result) (state_in S.words self.new) }
        ensures loans { SameLoans self.old self.new }
    {
        let found = self.enter_holding(seat, passage)?;
        self.table[usize::from(seat.0)] = Seat {
            state: State::Leaving,
            place: Place::ReadRole,
            height: 1,
            ..found
        };
        Ok(State::Leaving)
    }

    // A publish: accepted from the holder alone. It changes nothing, and answers the state.
    pub fn publish(&mut self, seat: SeatId, passage: Passage) -> Result<State, BoxFault>
        ensures settles { Settles (published (state_in S.words self.old) seat.0 passage.0) (told_as state_number result) (state_in S.words self.new) }
        ensures loans { SameLoans self.old self.new }
    {
        let found = self.enter_holding(seat, passage)?;
        Ok(found.state)
    }

    // A look: the state of a seat, and the highest height that it has won.
    pub fn look(&mut self, seat: SeatId) -> Result<View, BoxFault>
        ensures settles { Settles (looked (state_in S.words self.old) seat.0) (told_as (λ v. (state_number v.state, v.top)) result) (state_in S.words self.new) }
        ensures loans { SameLoans self.old self.new }
    {
        let found = self.enter(seat)?;
        Ok(View {
            state: found.state,
            top: found.top,
        })
    }
}

// The record of a seat whose passage begins.
fn begin(passage: Passage) -> Seat
    ensures { result ≡ climber passage.0 }
{
    Seat {
        state: State::Climbing,
        place: Place::ClaimApply,
        height: 1,
        passage,
        ..Seat::away()
    }
}

// The record of a climbing seat that has given up.
fn abandon(seat: Seat) -> Seat
    ensures { result ≡ given_up seat }
{
    let seat = Seat {
        gave_up: true,
        ..seat
    };
    // by number, since a group of places is a range of the algorithm's lines
    match seat.place.number() {
        2 => seat.backs_out(),
        5..=14 => Seat {
            place: Place::CloseApply,
            ..seat
        },
        _ => seat,
    }
}

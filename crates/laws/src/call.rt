ghost use Rattle.std.specs.Prelude.{◌≡◌};
ghost use Rattle.lock.specs.Locks.{SameLoans, state_in};
ghost use Rattle.lock.specs.States.{Settles};
ghost use Rattle.laws.specs.Runs.{performed_open, seat_of};

use layout::{Passage, Refusal, SeatId};
use lock::Lock;
use seats::Seat;
use store::Store;

// A call that changes a box, or may. Seat and passage stay two: the law matches on calls, and would take a pair apart
// at once.
#[derive(Clone, Copy)]
pub enum Call {
    Apply {
        seat: SeatId,
    },
    Poll {
        seat: SeatId,
        passage: Passage,
        coin: u8,
    },
    GiveUp {
        seat: SeatId,
        passage: Passage,
    },
    Leave {
        seat: SeatId,
        passage: Passage,
    },
    Publish {
        seat: SeatId,
        passage: Passage,
    },
}

impl Call {
    // The seat that the call names.
    pub fn seat(self) -> SeatId
        ensures { result.0 ≡ seat_of self }
    {
        match self {
            Call::Apply { seat }
            | Call::Poll { seat, .. }
            | Call::GiveUp { seat, .. }
            | Call::Leave { seat, .. }
            | Call::Publish { seat, .. } => seat,
        }
    }

    // Makes the call. Answers the passage of an application, and else the number of the state afterwards; or the refusal.
    pub fn make<S: Store>(self, lock: &mut Lock<'_, S>) -> Result<u16, Refusal>
        ensures settles { Settles (performed_open self (state_in S.words lock.old)) result (state_in S.words lock.new) }
        ensures loans { SameLoans lock.old lock.new }
    {
        let state = match self {
            Call::Apply { seat } => return Ok(lock.apply(seat)?.0),
            Call::Poll {
                seat,
                passage,
                coin,
            } => lock.poll(seat, passage, coin)?,
            Call::GiveUp { seat, passage } => lock.give_up(seat, passage)?,
            Call::Leave { seat, passage } => lock.leave(seat, passage)?,
            Call::Publish { seat, passage } => lock.publish(seat, passage)?,
        };
        Ok(u16::from(state.number()))
    }
}

// What a call got: a passage number for an application and otherwise the state afterwards, or the refusal; and the
// record of its seat afterwards, an away one where there is no such seat.
#[derive(Clone, Copy)]
pub struct Got {
    // a number, as the law has it: which of the two it is says the call
    pub answer: Result<u16, Refusal>,
    pub seat: Seat,
}

ghost use Rattle.std.specs.Prelude.{◌≡◌, ◌≤◌, true, false, MatchResult};
ghost use Rattle.layout.specs.Gates.{heights_of};
ghost use Rattle.layout.specs.Refusals.{refusal_of, unfit};
ghost use Rattle.seats.specs.Places.{within};
ghost use Rattle.steps.specs.declared.cells.Cell.TheVariants.{SyncOne};
ghost use Rattle.steps.specs.Codes.{cell_at};
ghost use Rattle.steps.specs.Outcomes.{captured, closes};

use crate::cells::Cell;
use crate::gate::Gate;
use layout::BoxFault;
use seats::{Place, Seat, State};
use store::Store;

impl<S: Store> Gate<'_, S> {
    // The seat that has won the gates up to its aim.
    pub(crate) fn capture(&self, seat: Seat) -> Seat
        requires { seat.aim ≤ heights_of self.now.at.ways }
        ensures { result ≡ captured self.now.at seat }
    {
        let top = seat.aim;
        if top == self.heights() {
            return Seat {
                state: State::Holding,
                place: Place::Rest,
                height: top,
                top,
                ..seat
            };
        }
        if seat.gave_up {
            return Seat { top, ..seat }.backs_out();
        }
        Seat {
            state: State::Climbing,
            place: Place::ClaimApply,
            height: top + 1,
            top,
            ..seat
        }
    }

    // The height up to which a word in Sync1 hands over: one from `low` up.
    pub(crate) fn handed_height(&self, word: u64, low: u8) -> Result<u8, BoxFault>
        ensures { MatchResult result (λ x. (x ≡ word) × (within low (heights_of self.now.at.ways) word ≡ true)) (λ e. (refusal_of e ≡ unfit self.now.at.seat.0 self.now.at.height (cell_at self.now.at SyncOne)) × (within low (heights_of self.now.at.ways) word ≡ false)) }
    {
        match u8::try_from(word) {
            Ok(height) if (low..=self.heights()).contains(&height) => Ok(height),
            _ => Err(self.unfit(Cell::SyncOne)),
        }
    }
}

// Where a seat that is done with a gate goes.
pub(crate) fn closing_place(seat: &Seat) -> Place
    ensures { result ≡ closes seat.now }
{
    match seat.state {
        State::Away | State::Climbing => Place::WithdrawApply,
        State::Holding | State::Leaving => Place::ReadApply,
    }
}

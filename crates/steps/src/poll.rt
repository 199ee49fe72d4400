ghost use Rattle.std.specs.Prelude.{◌≡◌, Some, MatchResult};
ghost use Rattle.layout.specs.Refusals.{refusal_of, told_as};
ghost use Rattle.seats.specs.Places.{state_number};
ghost use Rattle.steps.specs.Outcomes.{Does};
ghost use Rattle.steps.specs.Polls.{Asked, Due, Unchanged, poll_refusal, polled_seat};

use crate::codes::Coin;
use crate::gate::Gate;
use layout::{BoxFault, Meeting, Passage, Path};
use seats::{Seat, State};
use store::Store;

// Polls one seat: asks the questions about it, and does the step of its place. Answers the state afterwards.
pub fn poll_seat<S: Store>(
    store: &mut S,
    seat: &mut Seat,
    path: Path,
    passage: Passage,
    coin: u8,
) -> Result<State, BoxFault>
    ensures does { Does (polled_seat path.ways.number path.seat.0 passage.0 coin seat.old (S.words store.old)) (told_as state_number result) (S.words store.new) seat.new }
    ensures same { Unchanged result (S.words store.new) (S.words store.old) seat.new seat.old }
{
    let due = due(store.size(), seat, path, passage, coin)?;
    Gate::new(store, due.at).step(seat, due.coin)?;
    Ok(seat.state)
}

// An accepted poll: where its step is taken, and with which coin.
#[derive(Clone, Copy)]
pub struct DuePoll {
    at: Meeting,
    coin: Coin,
}

// Asks the questions, and finds the gate.
fn due(
    size: usize,
    seat: &Seat,
    path: Path,
    passage: Passage,
    coin: u8,
) -> Result<DuePoll, BoxFault>
    ensures { MatchResult result (λ d. Due path.ways.number path.seat.0 passage.0 coin seat.now size d.at d.coin) (λ e. poll_refusal path.ways.number path.seat.0 passage.0 coin seat.now size ≡ Some (refusal_of e)) }
{
    let coin = ask(size, seat, path, passage, coin)?;
    let at = path
        .meets(seat.height)
        .ok_or(BoxFault::Unlawful(path.seat()))?;
    Ok(DuePoll { at, coin })
}

// The questions about the seat, in turn. The store is asked for here too, so that no step stops half-way. What is asked
// of comes as five, since a struct of it would be made in `due` for this one call.
fn ask(size: usize, seat: &Seat, path: Path, passage: Passage, coin: u8) -> Result<Coin, BoxFault>
    ensures { MatchResult result (λ c. Asked path.ways.number path.seat.0 passage.0 coin seat.now size c) (λ e. poll_refusal path.ways.number path.seat.0 passage.0 coin seat.now size ≡ Some (refusal_of e)) }
{
    let id = path.seat();
    if size < path.cells() {
        return Err(BoxFault::FewCells(id));
    }
    if !seat.lawful(path.ways()) {
        return Err(BoxFault::Unlawful(id));
    }
    if seat.state == State::Away || seat.passage != passage {
        return Err(BoxFault::Foreign(id));
    }
    if !matches!(seat.state, State::Climbing | State::Leaving) {
        return Err(BoxFault::WrongState(id));
    }
    Coin::try_from(coin).map_err(|_| BoxFault::BadCoin(id))
}

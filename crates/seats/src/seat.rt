ghost use Rattle.std.specs.Prelude.{◌≡◌};
ghost use Rattle.seats.specs.Seats.{away, backed_out, keeps_height};

use crate::place::Place;
use crate::state::State;
use layout::{Passage, WayId};

// A seat's record. The numbers may be anything: `lawful` says which records the box accepts.
#[derive(Clone, Copy, PartialEq, Eq)]
pub struct Seat {
    pub state: State,
    pub place: Place,
    // the height at which it stands
    pub height: u8,
    // the highest height that it has won: 0 before the first, as heights count from 1
    pub top: u8,
    // the height up to which it wins with its next capture
    pub aim: u8,
    pub passage: Passage,
    // it has given up: a mark, and no case of the state, since it goes on through several
    pub gave_up: bool,
    // it has handed the queen its gates from this height up
    pub handed: bool,
    // the way whose Apply it reads next
    pub scan: WayId,
    // the passages that it has seen waiting, by way; 0 for none and no `Option`, in which `Some(0)` would be a second none
    pub noted: [u16; 4],
    // the way and the number that it keeps for a later step
    pub kept_way: WayId,
    pub kept_number: Passage,
}

impl Seat {
    // A seat that takes no part: every field is 0.
    pub fn away() -> Seat
        ensures { result ≡ away }
    {
        Seat {
            state: State::Away,
            place: Place::Rest,
            height: 0,
            top: 0,
            aim: 0,
            passage: Passage(0),
            gave_up: false,
            handed: false,
            scan: WayId(0),
            noted: [0; 4],
            kept_way: WayId(0),
            kept_number: Passage(0),
        }
    }

    // The seat after it has backed out: it gives back the gates that it won, if any.
    pub fn backs_out(self) -> Seat
        ensures { result ≡ backed_out self }
    {
        if self.top == 0 {
            return Seat::away();
        }
        Seat {
            state: State::Leaving,
            place: Place::ReadRole,
            height: 1,
            ..self
        }
    }

    // Whether it keeps the gate that it meets at a height.
    pub fn keeps(&self, height: u8) -> bool
        ensures { result ≡ keeps_height self.now height }
    {
        match self.state {
            State::Away => false,
            State::Climbing | State::Holding => (1..=self.top).contains(&height),
            State::Leaving => !self.handed && self.height < height && height <= self.top,
        }
    }
}

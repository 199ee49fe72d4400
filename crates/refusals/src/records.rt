// Seat records to try calls on, all of passage 1.
use layout::Passage;
use seats::{Place, Seat, State};

// A seat that climbs at the first height.
pub fn climbing(place: Place) -> Seat {
    Seat {
        state: State::Climbing,
        place,
        height: 1,
        passage: Passage(1),
        ..Seat::away()
    }
}

// A seat of four ways that holds.
pub fn holding() -> Seat {
    Seat {
        state: State::Holding,
        height: 3,
        top: 3,
        passage: Passage(1),
        ..Seat::away()
    }
}

// A seat of four ways that leaves, at the first height.
pub fn leaving(place: Place) -> Seat {
    Seat {
        state: State::Leaving,
        place,
        height: 1,
        top: 3,
        passage: Passage(1),
        ..Seat::away()
    }
}

ghost use Rattle.std.specs.Prelude.{◌≡◌};
ghost use Rattle.seats.specs.Places.{state_number};

use std::fmt;

// What a seat is doing.
#[derive(Clone, Copy, PartialEq, Eq, Debug)]
pub enum State {
    // it takes no part
    Away = 0,
    // it is on its way up, gate by gate
    Climbing = 1,
    // it has the writing right
    Holding = 2,
    // it gives back the gates that it won
    Leaving = 3,
}

impl State {
    // The state's number. A method, since it ends chains such as `view.state.number()`.
    pub fn number(self) -> u8
        ensures { result ≡ state_number self }
    {
        self as u8
    }
}

impl fmt::Display for State {
    fn fmt<W: fmt::Write>(&self, f: &mut fmt::Formatter<W>) -> fmt::Result {
        f.pad(match self {
            State::Away => "away",
            State::Climbing => "climbing",
            State::Holding => "holding",
            State::Leaving => "leaving",
        })
    }
}

ghost use Rattle.std.specs.Prelude.{◌≡◌};
ghost use Rattle.script.specs.Fields.{most_of};

use std::fmt;

// What a number in a script says.
#[derive(Clone, Copy, PartialEq, Eq, Debug)]
pub enum Part {
    Ways,
    Seat,
    Passage,
    Coin,
    Times,
}

impl Part {
    // The largest number that is taken.
    pub(crate) fn most(self) -> u16
        ensures { result ≡ most_of self }
    {
        match self {
            Part::Ways | Part::Seat | Part::Coin => 255,
            Part::Passage => 65535,
            Part::Times => 9999,
        }
    }
}

impl fmt::Display for Part {
    fn fmt<W: fmt::Write>(&self, f: &mut fmt::Formatter<W>) -> fmt::Result {
        f.pad(match self {
            Part::Ways => "number of ways",
            Part::Seat => "seat",
            Part::Passage => "passage",
            Part::Coin => "coin",
            Part::Times => "number of times",
        })
    }
}

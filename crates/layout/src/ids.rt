ghost use Rattle.std.specs.Prelude.{Some};
ghost use Rattle.std.specs.Fmt.{decimal};

use std::fmt;

// A seat: one client's entry in the table, by its number. It is the algorithm's process ID.
#[derive(Clone, Copy, PartialEq, Eq, Debug)]
pub struct SeatId(pub u8);

// A way: one of the entries into a gate, by its number. It is the algorithm's pseudo-ID.
#[derive(Clone, Copy, PartialEq, Eq, Debug)]
pub struct WayId(pub u8);

// The number of a passage: one client's course from application to away. It is 1 to 16,383.
#[derive(Clone, Copy, PartialEq, Eq, Debug)]
pub struct Passage(pub u16);

// each shows its number; three impls alike, since a macro of the repository may not write an `impl`
impl fmt::Display for SeatId {
    ghost output = { λ x. Some (decimal x.0) };

    fn fmt<W: fmt::Write>(&self, f: &mut fmt::Formatter<W>) -> fmt::Result {
        let SeatId(number) = self;
        fmt::Display::fmt(number, f)
    }
}

impl fmt::Display for WayId {
    ghost output = { λ x. Some (decimal x.0) };

    fn fmt<W: fmt::Write>(&self, f: &mut fmt::Formatter<W>) -> fmt::Result {
        let WayId(number) = self;
        fmt::Display::fmt(number, f)
    }
}

impl fmt::Display for Passage {
    ghost output = { λ x. Some (decimal x.0) };

    fn fmt<W: fmt::Write>(&self, f: &mut fmt::Formatter<W>) -> fmt::Result {
        let Passage(number) = self;
        fmt::Display::fmt(number, f)
    }
}

ghost use Rattle.std.specs.Prelude.{◌≡◌, ◌≤◌, IfOk, OnOk};
ghost use Rattle.script.specs.Fields.{field_of, most_of, times_of};
ghost use Rattle.script.specs.Words.{rest_of, word_of};
ghost use Rattle.script.specs.Lines.{end_of, own_of, past_two};

use crate::fault::LineFault;
use crate::fields::{field, times};
use crate::part::Part;
use crate::words::first_word;
use layout::{Passage, SeatId};

// A seat and a passage, as most calls name them.
#[derive(Clone, Copy)]
pub(crate) struct Own {
    pub(crate) seat: SeatId,
    pub(crate) passage: Passage,
}

// The words of a line that are left.
#[derive(Drop)]
pub(crate) struct Reader<'a> {
    pub(crate) rest: &'a [u8],
}

impl<'a> Reader<'a> {
    // Takes the next word, which is empty at the end of the line.
    pub(crate) fn word(&mut self) -> &'a [u8]
        ensures word { result.now ≡ word_of self.old.rest.now }
        ensures rest { self.new.rest.now ≡ rest_of self.old.rest.now }
    {
        let (word, rest) = first_word(self.rest);
        self.rest = rest;
        word
    }

    // Takes the next word as a number.
    pub(crate) fn number(&mut self, part: Part) -> Result<u16, LineFault>
        ensures value { result ≡ field_of part (word_of self.old.rest.now) }
        ensures bound { IfOk result (λ n. n ≤ most_of part) }
        ensures rest { self.new.rest.now ≡ rest_of self.old.rest.now }
    {
        field(self.word(), part)
    }

    // Takes the next word as a number of times, which is 1 at the end of the line.
    pub(crate) fn times(&mut self) -> Result<u16, LineFault>
        ensures value { result ≡ times_of (word_of self.old.rest.now) }
        ensures rest { self.new.rest.now ≡ rest_of self.old.rest.now }
    {
        times(self.word())
    }

    // Takes a seat and a passage.
    pub(crate) fn own(&mut self) -> Result<Own, LineFault>
        ensures value { result ≡ own_of self.old.rest.now }
        ensures rest { OnOk result (self.new.rest.now ≡ past_two self.old.rest.now) }
    {
        let seat = SeatId(self.number(Part::Seat)? as u8);
        let passage = Passage(self.number(Part::Passage)?);
        Ok(Own { seat, passage })
    }

    // Whether the line ends here.
    pub(crate) fn end(&mut self) -> Result<(), LineFault>
        ensures { result ≡ end_of self.old.rest.now }
    {
        match self.word() {
            [] => Ok(()),
            _ => Err(LineFault::TooMany),
        }
    }
}

ghost use Rattle.std.specs.Prelude.{◌≡◌, ◌&&◌, nat_le};
ghost use Rattle.layout.specs.Gates.{heights_of};
ghost use Rattle.seats.specs.Lawful.{ranged_notes, ranged, mark_fits, place_fits, lawful};
ghost use Rattle.seats.specs.Places.{within};

use crate::seat::Seat;
use crate::state::State;

impl Seat {
    // Whether a box of that many ways accepts the record.
    #[tactic(auto, using(crate::proofs::SeatLaws::away_steps), unfolding(crate::specs::Lawful::lawful))]
    pub fn lawful(&self, ways: u8) -> bool
        ensures { result ≡ lawful ways self.now }
    {
        match self.state {
            State::Away => *self == Seat::away(),
            _ => self.in_range(ways) && self.fits_place(ways) && self.fits_mark(),
        }
    }

    // The numbers of a seat that takes part lie in their ranges.
    fn in_range(&self, ways: u8) -> bool
        ensures { result ≡ ranged ways self.now }
    {
        (1..=16383).contains(&self.passage.0)
            && self.heights_in_range(ways)
            && self.scan.0 < ways
            && self.notes_in_range(ways)
    }

    fn heights_in_range(&self, ways: u8) -> bool
        ensures { result ≡ (within 1 (heights_of ways) self.now.height && (nat_le self.now.top (heights_of ways) && nat_le self.now.aim (heights_of ways))) }
    {
        let heights = ways.saturating_sub(1);
        (1..=heights).contains(&self.height) && self.top <= heights && self.aim <= heights
    }

    fn notes_in_range(&self, ways: u8) -> bool
        ensures { result ≡ ranged_notes ways self.now }
    {
        self.noted.iter().all(|number| *number <= 16383)
            && self.kept_way.0 < ways
            && self.kept_number.0 <= 16383
    }

    // The heights and the place fit the state.
    fn fits_place(&self, ways: u8) -> bool
        ensures { result ≡ place_fits ways self.now }
    {
        // by number, here and in `fits_mark`: a group of places is a range of the algorithm's lines
        let place = self.place.number();
        match self.state {
            State::Away => false,
            State::Climbing => {
                self.height.checked_sub(1) == Some(self.top) && matches!(place, 2..=32 | 52..=70)
            }
            State::Holding => {
                self.height == ways.saturating_sub(1) && self.height == self.top && place == 0
            }
            State::Leaving => self.height <= self.top && matches!(place, 35..=70),
        }
    }

    // The give-up mark, and at the capture the aim, fit the place.
    fn fits_mark(&self) -> bool
        ensures { result ≡ mark_fits self.now }
    {
        match self.place.number() {
            2..=14 => !self.gave_up,
            16 => self.height <= self.aim,
            19..=32 => self.gave_up,
            52..=70 => self.gave_up || self.state != State::Climbing,
            _ => true,
        }
    }
}

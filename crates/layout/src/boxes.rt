ghost use Rattle.std.specs.Prelude.{◌≡◌, ◌<◌, ◌≤◌, Some, None, MatchOption, MatchResult};
ghost use Rattle.layout.specs.Gates.{seats_of, cells_of};
ghost use Rattle.layout.specs.Boxes.{ways_refusal, issue_of, issued};
ghost use Rattle.layout.specs.Refusals.{refusal_of};

use crate::fault::BoxFault;
use crate::ids::{Passage, SeatId};
use crate::path::Path;
use crate::record::BoxRecord;
use crate::ways::Ways;

impl BoxRecord {
    // The record of a box of that many ways, before its first passage.
    pub fn open(ways: u8) -> Result<BoxRecord, BoxFault>
        ensures { MatchResult result (λ b. (ways_refusal ways ≡ None) × (b.ways.number ≡ ways) × (b.next ≡ 1)) (λ e. ways_refusal ways ≡ Some (refusal_of e)) }
    {
        let ways = Ways::try_from(ways)?;
        Ok(BoxRecord { ways, next: 1 })
    }

    // How many ways a gate has.
    pub fn ways(&self) -> u8
        ensures { result ≡ self.now.ways.number }
    {
        self.ways.number()
    }

    // How many seats the box has.
    pub fn seats(&self) -> usize
        ensures { result ≡ seats_of self.now.ways.number }
    {
        self.ways.seats()
    }

    // How many cells the box has.
    pub fn cells(&self) -> usize
        ensures { result ≡ cells_of self.now.ways.number }
    {
        self.ways.cells()
    }

    // The path of a seat, if the box has that seat.
    pub fn path(&self, seat: SeatId) -> Option<Path>
        ensures { MatchOption result (seats_of self.now.ways.number ≤ seat.0) (λ p. (p.ways ≡ self.now.ways) × (p.seat ≡ seat) × (seat.0 < seats_of self.now.ways.number)) }
    {
        if usize::from(seat.0) >= self.seats() {
            return None;
        }
        Some(Path {
            ways: self.ways,
            seat,
        })
    }

    // Gives out the next number, if one is left.
    pub fn issue(&mut self) -> Option<Passage>
        ensures answer { result ≡ issue_of self.old.next }
        ensures next { self.new.next ≡ issued self.old.next }
        ensures ways { self.new.ways ≡ self.old.ways }
    {
        if self.next > 16383 {
            return None;
        }
        let number = self.next;
        self.next = number + 1;
        Some(Passage(number))
    }
}

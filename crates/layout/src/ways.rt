ghost use Rattle.std.specs.Prelude.{◌≡◌, ◌≤◌, Some, None, MatchResult};
ghost use Rattle.layout.specs.Boxes.{ways_refusal};
ghost use Rattle.layout.specs.Gates.{seats_of, cells_of, gate_cells};
ghost use Rattle.layout.specs.Refusals.{refusal_of};

use crate::fault::BoxFault;

// How many ways each gate of a box has: 2, 3 or 4. The box's sizes follow from it.
#[derive(Clone, Copy, PartialEq, Eq, Debug)]
pub struct Ways {
    number: u8,
    ghost few: { 2 ≤ number },
    ghost most: { number ≤ 4 },
}

impl TryFrom<u8> for Ways {
    type Error = BoxFault;

    ghost try_from_gives = { λ n r. MatchResult r (λ w. (ways_refusal n ≡ None) × (w.number ≡ n)) (λ e. ways_refusal n ≡ Some (refusal_of e)) };

    fn try_from(number: u8) -> Result<Ways, BoxFault> {
        match number {
            2..=4 => Ok(Ways { number }),
            _ => Err(BoxFault::Ways),
        }
    }
}

impl Ways {
    // Their number.
    pub fn number(self) -> u8
        ensures { result ≡ self.number }
    {
        self.number
    }

    // How many seats the box has.
    pub fn seats(self) -> usize
        ensures { result ≡ seats_of self.number }
    {
        match self.number {
            2 => 2,
            3 => 9,
            _ => 64,
        }
    }

    // How many cells the box has.
    pub fn cells(self) -> usize
        ensures { result ≡ cells_of self.number }
    {
        match self.number {
            2 => 8,
            3 => 40,
            _ => 252,
        }
    }

    // How many cells a gate has.
    pub fn cells_per_gate(self) -> u16
        ensures { result ≡ gate_cells self.number }
    {
        4 + 2 * u16::from(self.number)
    }
}

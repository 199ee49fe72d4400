ghost use Rattle.std.specs.Prelude.{◌≡◌, ◌≤◌, IfSome};
ghost use Rattle.layout.specs.Gates.{cell_of, cells_of};
ghost use Rattle.layout.specs.Meetings.{meeting_of, Inside};

use crate::ids::{SeatId, WayId};
use crate::path::{Meeting, Path};

impl Path {
    // How many ways each gate has.
    pub fn ways(&self) -> u8
        ensures { result ≡ self.now.ways.number }
    {
        self.ways.number()
    }

    // How many cells the box has.
    pub fn cells(&self) -> usize
        ensures { result ≡ cells_of self.now.ways.number }
    {
        self.ways.cells()
    }

    // Whose path it is.
    pub fn seat(&self) -> SeatId
        ensures { result ≡ self.now.seat }
    {
        self.seat
    }

    // The gate that the seat meets at a height, if there is such a height.
    pub fn meets(&self, height: u8) -> Option<Meeting>
        ensures value { result ≡ meeting_of self.now.ways.number self.now.seat.0 height }
        ensures inside { IfSome result (λ m. Inside m) }
    {
        let p = self.seat.0;
        let (gate, way) = match (self.ways.number(), height) {
            (2, 1) => (p / 2, p % 2),
            (3, 1) => (p / 3, p % 3),
            (3, 2) => (3 + p / 9, p / 3 % 3),
            (4, 1) => (p / 4, p % 4),
            (4, 2) => (16 + p / 16, p / 4 % 4),
            (4, 3) => (20 + p / 64, p / 16 % 4),
            _ => return None,
        };
        Some(Meeting {
            seat: self.seat,
            height,
            base: u16::from(gate) * self.ways.cells_per_gate(),
            ways: self.ways.number(),
            way: WayId(way),
        })
    }
}

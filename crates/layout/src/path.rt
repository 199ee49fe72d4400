ghost use Rattle.std.specs.Prelude.{◌<◌};
ghost use Rattle.layout.specs.Gates.{seats_of};

use crate::ids::{SeatId, WayId};
use crate::ways::Ways;

// A seat's path: the gates that it meets, one at each height.
#[derive(Clone, Copy)]
pub struct Path {
    pub(crate) ways: Ways,
    pub(crate) seat: SeatId,
    ghost known: { seat.0 < seats_of ways.number },
}

// A gate as a seat meets it at a height.
#[derive(Clone, Copy)]
pub struct Meeting {
    pub seat: SeatId,
    pub height: u8,
    // the first of the gate's cells
    pub base: u16,
    // how many ways the gate has; not a `Ways`, since `meeting` makes this record of plain numbers
    pub ways: u8,
    // the seat's way into it
    pub way: WayId,
}

ghost use Rattle.std.specs.Prelude.{◌≡◌};
ghost use Rattle.layout.specs.Refusals.{refusal, refusal_of};
ghost use Rattle.layout.specs.declared.fault.BoxFault.TheVariants.{Store};

use crate::ids::SeatId;
use store::StoreFault;

// A refusal as it is told: its number, the seat that the call names, and for an unfit word the height and the cell.
#[derive(Clone, Copy, PartialEq, Eq, Debug)]
pub struct Refusal {
    // a number, as it is told: store, box and line have an enum each, and tell theirs by this
    pub number: u8,
    pub seat: SeatId,
    pub height: u8,
    pub cell: u16,
}

impl Refusal {
    // A refusal that names no height and no cell: both are 0, as a reply has them.
    pub fn plain(number: u8, seat: SeatId) -> Refusal
        ensures { result ≡ refusal number seat.0 }
    {
        Refusal {
            number,
            seat,
            height: 0,
            cell: 0,
        }
    }
}

// Why the box refuses a call: the question that was answered by no.
#[derive(Clone, Copy, PartialEq, Eq, Debug)]
pub enum BoxFault {
    // the ways are not 2, 3 or 4
    Ways,
    // the store has not all the cells
    FewCells(SeatId),
    // the table has not all the seats
    FewSeats(SeatId),
    // there is no such seat
    NoSeat(SeatId),
    // the seat's record is not lawful
    Unlawful(SeatId),
    // the seat is away, or the passage is not its own
    Foreign(SeatId),
    // the seat's state does not allow the call
    WrongState(SeatId),
    // no passage number is left
    Spent(SeatId),
    // the coin is not 0, 1 or 2
    BadCoin(SeatId),
    // the word that was read does not fit
    Unfit { seat: SeatId, height: u8, cell: u16 },
    // the store refused an access
    Store(StoreFault),
}

// The refusal as it is told.
impl From<BoxFault> for Refusal {
    ghost from_gives = { λ e r. r ≡ refusal_of e };

    fn from(fault: BoxFault) -> Refusal {
        match fault {
            BoxFault::Ways => Refusal::plain(1, SeatId(0)),
            BoxFault::FewCells(seat) => Refusal::plain(2, seat),
            BoxFault::FewSeats(seat) => Refusal::plain(3, seat),
            BoxFault::NoSeat(seat) => Refusal::plain(4, seat),
            BoxFault::Unlawful(seat) => Refusal::plain(5, seat),
            BoxFault::Foreign(seat) => Refusal::plain(6, seat),
            BoxFault::WrongState(seat) => Refusal::plain(7, seat),
            BoxFault::Spent(seat) => Refusal::plain(8, seat),
            BoxFault::BadCoin(seat) => Refusal::plain(9, seat),
            BoxFault::Unfit { seat, height, cell } => Refusal {
                number: 10,
                seat,
                height,
                cell,
            },
            BoxFault::Store(fault) => Refusal::plain(fault.number(), SeatId(0)),
        }
    }
}

impl From<StoreFault> for BoxFault {
    ghost from_gives = { λ x y. y ≡ Store x };

    fn from(value: StoreFault) -> Self {
        BoxFault::Store(value)
    }
}

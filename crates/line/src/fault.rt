ghost use Rattle.std.specs.Prelude.{◌≡◌};
ghost use Rattle.layout.specs.Refusals.{refusal};
ghost use Rattle.line.specs.Faults.{told_to};
ghost use Rattle.line.specs.declared.fault.LineFault.TheVariants.{Box};

use layout::{BoxFault, Refusal, SeatId};

// Why the line refuses a message: the question that was answered by no.
#[derive(Clone, Copy, PartialEq, Eq, Debug)]
pub enum LineFault {
    // the reply memory is shorter than the longest reply
    ReplyRoom,
    // another version than 1
    Version,
    // no lawful length, or fewer bytes than it says
    Frame,
    // no such kind
    Kind,
    // another length than this kind has; a byte and no `Kind`, since whoever builds a fault may tell any
    Length { kind: u8 },
    // the box refused the call
    Box(BoxFault),
}

// A refusal as it is told on the line: the kind byte of its reply, and what follows.
#[derive(Clone, Copy, PartialEq, Eq, Debug)]
pub struct LineRefusal {
    // a byte and no `Kind`: the format has 0 where no kind is known
    pub kind: u8,
    pub refusal: Refusal,
}

impl LineFault {
    // The refusal as it is told in reply to a message of that kind. Where the kind is not known, it is told as 0.
    // The kind is a byte, since any caller may name one.
    pub fn refusal(self, kind: u8) -> LineRefusal
        ensures { result ≡ told_to kind self }
    {
        match self {
            LineFault::ReplyRoom => unnamed(0, 30),
            LineFault::Version => unnamed(0, 31),
            LineFault::Frame => unnamed(0, 32),
            LineFault::Kind => unnamed(0, 33),
            LineFault::Length { kind } => unnamed(kind, 34),
            LineFault::Box(fault) => LineRefusal {
                kind,
                refusal: Refusal::from(fault),
            },
        }
    }
}

// A refusal that names no seat.
fn unnamed(kind: u8, number: u8) -> LineRefusal
    ensures { result ≡ record { kind = kind; refusal = refusal number 0 } }
{
    LineRefusal {
        kind,
        refusal: Refusal::plain(number, SeatId(0)),
    }
}

impl From<BoxFault> for LineFault {
    ghost from_gives = { λ x y. y ≡ Box x };

    fn from(value: BoxFault) -> Self {
        LineFault::Box(value)
    }
}

ghost use Rattle.std.specs.Prelude.{◌≡◌};
ghost use Rattle.line.specs.Kinds.{KindOf, kind_number};

use crate::fault::LineFault;

// What a message asks for. Its number is the first byte of the body.
#[derive(Clone, Copy, PartialEq, Eq, Debug)]
pub enum Kind {
    Apply = 1,
    Poll = 2,
    GiveUp = 3,
    Leave = 4,
    Look = 5,
    Publish = 6,
}

impl From<Kind> for u8 {
    ghost from_gives = { λ k n. n ≡ kind_number k };

    // The kind byte.
    fn from(value: Kind) -> Self {
        value as u8
    }
}

impl TryFrom<u8> for Kind {
    type Error = LineFault;

    ghost try_from_gives = { λ n r. KindOf n r };

    // The kind of a byte.
    fn try_from(value: u8) -> Result<Self, LineFault> {
        match value {
            1 => Ok(Kind::Apply),
            2 => Ok(Kind::Poll),
            3 => Ok(Kind::GiveUp),
            4 => Ok(Kind::Leave),
            5 => Ok(Kind::Look),
            6 => Ok(Kind::Publish),
            _ => Err(LineFault::Kind),
        }
    }
}

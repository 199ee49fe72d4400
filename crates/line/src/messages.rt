ghost use Rattle.std.specs.Prelude.{◌≡◌, ◌+◌, ◌*◌};
ghost use Rattle.line.specs.Kinds.{kind_number};
ghost use Rattle.line.specs.Messages.{Short, kind_of, message_of, request_in, request_of};

use crate::fault::LineFault;
use crate::kinds::Kind;
use layout::{Passage, SeatId};

// A message. It is no `laws::Call`, which has no look and no text. The text that is published is a part of the input. It may have any length here, since `kind` asks nothing
// of its caller: so contracts say, and no ghost field does, that a text which was read has at most 80 bytes.
#[derive(Clone, Copy)]
pub enum Message<'a> {
    Apply {
        seat: SeatId,
    },
    Poll {
        seat: SeatId,
        passage: Passage,
        coin: u8,
    },
    GiveUp {
        seat: SeatId,
        passage: Passage,
    },
    Leave {
        seat: SeatId,
        passage: Passage,
    },
    Look {
        seat: SeatId,
    },
    Publish {
        seat: SeatId,
        passage: Passage,
        text: &'a [u8],
    },
}

impl Message<'_> {
    // The kind, whose number is the kind byte.
    pub fn kind(&self) -> Kind
        ensures { kind_number result ≡ kind_of (request_of self.now) }
    {
        match self {
            Message::Apply { .. } => Kind::Apply,
            Message::Poll { .. } => Kind::Poll,
            Message::GiveUp { .. } => Kind::GiveUp,
            Message::Leave { .. } => Kind::Leave,
            Message::Look { .. } => Kind::Look,
            Message::Publish { .. } => Kind::Publish,
        }
    }
}

// The message of a body. It asks first for the kind, and then for the kind's length.
#[tactic(auto, unfolding(crate::specs::Messages::message_of))]
pub(crate) fn decode(body: &[u8]) -> Result<Message<'_>, LineFault>
    ensures answer { request_in result ≡ message_of body.now }
    ensures short { Short result }
{
    let [first, fields @ ..] = body else {
        return Err(LineFault::Kind);
    };
    match (Kind::try_from(*first)?, fields) {
        (Kind::Apply, [seat]) => Ok(Message::Apply {
            seat: SeatId(*seat),
        }),
        (Kind::Poll, [seat, hi, lo, coin]) => Ok(Message::Poll {
            seat: SeatId(*seat),
            passage: joined(*hi, *lo),
            coin: *coin,
        }),
        (Kind::GiveUp, [seat, hi, lo]) => Ok(Message::GiveUp {
            seat: SeatId(*seat),
            passage: joined(*hi, *lo),
        }),
        (Kind::Leave, [seat, hi, lo]) => Ok(Message::Leave {
            seat: SeatId(*seat),
            passage: joined(*hi, *lo),
        }),
        (Kind::Look, [seat]) => Ok(Message::Look {
            seat: SeatId(*seat),
        }),
        (Kind::Publish, [seat, hi, lo, text @ ..]) if matches!(text.len(), 1..=80) => {
            Ok(Message::Publish {
                seat: SeatId(*seat),
                passage: joined(*hi, *lo),
                text,
            })
        }
        _ => Err(LineFault::Length { kind: *first }),
    }
}

// The passage of two bytes, the high one first.
fn joined(hi: u8, lo: u8) -> Passage
    ensures { result.0 ≡ hi * 256 + lo }
{
    Passage(u16::from_be_bytes([hi, lo]))
}

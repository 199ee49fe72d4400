ghost use Rattle.std.specs.Prelude.{◌≡◌, ◌≤◌, length, take, drop, unwrap_or, IfOk, IfSome};
ghost use Rattle.line.specs.Reader.{ShortNext, header_of, missing, next_of, place_of, request_next, size_found};
ghost use Rattle.line.specs.Streams.{waits_for};

use crate::fault::LineFault;
use crate::messages::{Message, decode};

// The reader's place in the input. It stands apart from the input, which grows and is cut between two calls.
#[derive(Clone, Copy)]
pub struct Cursor {
    pub at: usize,
}

// Puts the reader's place back when it goes, unless the message was accepted.
pub(crate) struct Guard<'a> {
    place: &'a mut Cursor,
    // the message's first byte, none once the message is accepted
    back: Option<usize>,
}

impl Drop for Guard<'_> {
    fn drop(self)
        ensures { self.exit.0.now.at ≡ unwrap_or self.entry.back self.entry.place.now.at }
    {
        let Guard { place, back } = self;
        if let Some(start) = back {
            place.at = start;
        }
    }
}

// Reads the next message, or None at the end. The place goes past a message that is accepted, and else stays.
#[tactic(auto, using(std::proofs::lemmas::List::take_rest), unfolding(crate::specs::Reader::next_of, crate::specs::Reader::place_of))]
pub fn next_message<'a>(
    place: &mut Cursor,
    input: &'a [u8],
) -> Result<Option<Message<'a>>, LineFault>
    ensures answer { request_next result ≡ next_of (drop place.old.at input.now) }
    ensures place { place.new.at ≡ place_of place.old.at (drop place.old.at input.now) }
    ensures short { ShortNext result }
{
    let start = place.at;
    if start >= input.len() {
        return Ok(None);
    }
    let mut guard = Guard {
        place,
        back: Some(start),
    };
    let body = body_in(&input[start..])?.ok_or(LineFault::Frame)?;
    guard.place.at = start + 3;
    let message = decode(body)?;
    guard.place.at = start + 3 + body.len();
    guard.back = None;
    Ok(Some(message))
}

// The body that the header at the front of some bytes announces, or None where bytes of it are missing.
pub(crate) fn body_in(rest: &[u8]) -> Result<Option<&[u8]>, LineFault>
    requires { 1 ≤ length rest.now }
    ensures header { size_found result ≡ header_of rest.now }
    ensures waits { missing result ≡ waits_for rest.now }
    ensures body { IfOk result (λ found. IfSome found (λ body. body.now ≡ take (length body.now) (drop 3 rest.now))) }
{
    match rest {
        [1, hi, lo, body @ ..] => match usize::from(u16::from_be_bytes([*hi, *lo])) {
            size @ 1..=84 => Ok(body.get(..size)),
            _ => Err(LineFault::Frame),
        },
        [1, ..] => Ok(None),
        _ => Err(LineFault::Version),
    }
}

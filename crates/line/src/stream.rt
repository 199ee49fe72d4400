ghost use Rattle.std.specs.Prelude.{◌≡◌, suc, ◌≤◌, not, ◌&&◌, length, drop, Some};
ghost use Rattle.lock.specs.Locks.{SameLoans, state_in};
ghost use Rattle.line.specs.Courses.{Cuts};
ghost use Rattle.line.specs.Pauses.{Left};
ghost use Rattle.line.specs.Streams.{Turns, streamed, turn_of, turned, waits_for};

use crate::reader::{Cursor, body_in};
use crate::session::{Answered, answer};
use lock::Lock;
use store::Store;

// Why the answering stopped.
#[derive(Clone, Copy, PartialEq, Eq, Debug)]
pub enum Pause {
    // what is left of the input is no whole message
    Input,
    // the reply memory has no room for another reply
    Room,
    // a message could not be read: the session is over
    Done,
}

// How far the answering came.
#[derive(Clone, Copy)]
pub struct Progress {
    // so many reply bytes are written
    pub written: usize,
    pub pause: Pause,
}

// Answers every whole message of the input from the reader's place on, and writes the replies one after another. A
// message of which bytes are missing is answered only when the input has ended.
pub fn answer_all<S: Store>(
    lock: &mut Lock<'_, S>,
    place: &mut Cursor,
    input: &[u8],
    ended: bool,
    replies: &mut [u8],
) -> Progress
    ensures turns { Turns (streamed (suc (length input.now)) ended input.now (turn_of 0 (state_in S.words lock.old) place.old.at replies.old)) (Some result.pause) result.written (state_in S.words lock.new) place.new.at replies.new }
    ensures cut { Cuts ended input.now (state_in S.words lock.old) place.old.at result.pause result.written (state_in S.words lock.new) place.new.at replies.new }
    ensures left { Left ended input.now place.old.at replies.old result.pause result.written place.new.at replies.new }
    ensures loans { SameLoans lock.old lock.new }
{
    let mut written = 0;
    loop {
        if let Some(pause) = advance(lock, place, input, ended, replies, &mut written) {
            return Progress { written, pause };
        }
    }
}

// Answers one message, if there is a whole one and room for the reply. Answers why it stops, if it does.
// Memory and count stay two: a struct of both saves two clauses, and needs one on its reference and longer words in all.
fn advance<S: Store>(
    lock: &mut Lock<'_, S>,
    place: &mut Cursor,
    input: &[u8],
    ended: bool,
    replies: &mut [u8],
    written: &mut usize,
) -> Option<Pause>
    requires { written.old ≤ length replies.old }
    ensures turns { Turns (turned ended input.now (turn_of written.old (state_in S.words lock.old) place.old.at replies.old)) result written.new (state_in S.words lock.new) place.new.at replies.new }
    ensures within { written.new ≤ length replies.new }
    ensures loans { SameLoans lock.old lock.new }
{
    if held_back(place, input, ended) {
        return Some(Pause::Input);
    }
    match answer(lock, place, input, &mut replies[*written..]) {
        Ok(Answered::Replied(size)) => {
            *written += size;
            None
        }
        Ok(Answered::Over(size)) => {
            *written += size;
            Some(Pause::Done)
        }
        Ok(Answered::End) => Some(Pause::Input),
        Err(_) => Some(Pause::Room),
    }
}

// Whether more bytes are to be awaited: not after the end.
fn held_back(place: &Cursor, input: &[u8], ended: bool) -> bool
    ensures { result ≡ (not ended && waits_for (drop place.now.at input.now)) }
{
    !ended && waits(place, input)
}

// Whether the rest of the input is no whole message yet, and more bytes may make it one.
#[tactic(auto, using(std::proofs::lemmas::List::take_rest))]
pub fn waits(place: &Cursor, input: &[u8]) -> bool
    ensures { result ≡ waits_for (drop place.now.at input.now) }
{
    place.at >= input.len() || matches!(body_in(&input[place.at..]), Ok(None))
}

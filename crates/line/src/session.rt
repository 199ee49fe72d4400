ghost use Rattle.std.specs.Prelude.{◌≤◌};
ghost use Rattle.lock.specs.Locks.{SameLoans, state_in};
ghost use Rattle.line.specs.Messages.{request_of, text_size};
ghost use Rattle.line.specs.Serving.{served};
ghost use Rattle.line.specs.Sessions.{Answers, Responds, answered};

use crate::fault::LineFault;
use crate::messages::Message;
use crate::reader::{Cursor, next_message};
use crate::replies::{LONGEST, Room, encode, refuse};
use crate::serving::serve;
use lock::Lock;
use store::Store;

// What became of the next message.
#[derive(Clone, Copy, PartialEq, Eq, Debug)]
pub enum Answered {
    // the input was at its end: there is no reply
    End,
    // the message was read: the reply has so many bytes
    Replied(usize),
    // the message could not be read: the reply has so many bytes, and the session is over
    Over(usize),
}

// Reads the next message, has the box serve it, and writes the reply at the front of the reply memory.
#[tactic(auto, unfolding(crate::specs::Sessions::answered))]
pub fn answer<S: Store>(
    lock: &mut Lock<'_, S>,
    place: &mut Cursor,
    input: &[u8],
    reply: &mut [u8],
) -> Result<Answered, LineFault>
    ensures answers { Answers (answered (state_in S.words lock.old) place.old.at input.now reply.old) result (state_in S.words lock.new) place.new.at reply.new }
    ensures loans { SameLoans lock.old lock.new }
{
    // no `ok_or`: of what is lent by an `Option` a proof knows nothing after it
    let Some(room) = reply.first_chunk_mut::<LONGEST>() else {
        return Err(LineFault::ReplyRoom);
    };
    match next_message(place, input) {
        Ok(None) => Ok(Answered::End),
        Ok(Some(message)) => Ok(Answered::Replied(respond(lock, message, room))),
        Err(fault) => Ok(Answered::Over(refuse(None, fault, room))),
    }
}

// Has the box serve a message, and writes the reply. Answers how many bytes it has.
#[tactic(auto, using(crate::proofs::ReplyLaws::reply_fits))]
fn respond<S: Store>(lock: &mut Lock<'_, S>, message: Message<'_>, room: &mut Room) -> usize
    requires { text_size message ≤ 80 }
    ensures responds { Responds (request_of message.entry) (served (state_in S.words lock.old) (request_of message.entry)) room.old result (state_in S.words lock.new) room.new }
    ensures loans { SameLoans lock.old lock.new }
{
    let kind = message.kind();
    match serve(lock, message) {
        Ok(accepted) => encode(kind, accepted, room),
        Err(fault) => refuse(Some(kind), fault, room),
    }
}

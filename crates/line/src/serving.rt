ghost use Rattle.std.specs.Prelude.{◌≤◌};
ghost use Rattle.lock.specs.Locks.{SameLoans, state_in};
ghost use Rattle.line.specs.Messages.{request_of, text_size};
ghost use Rattle.line.specs.Serving.{Serves, served};

use crate::fault::LineFault;
use crate::messages::Message;
use crate::replies::Reply;
use lock::Lock;
use store::Store;

// Makes the call that a message asks for.
#[tactic(auto, unfolding(crate::specs::Serving::served))]
pub(crate) fn serve<'a, S: Store>(
    lock: &mut Lock<'_, S>,
    message: Message<'a>,
) -> Result<Reply<'a>, LineFault>
    requires { text_size message ≤ 80 }
    ensures serves { Serves (request_of message.entry) (served (state_in S.words lock.old) (request_of message.entry)) result (state_in S.words lock.new) }
    ensures loans { SameLoans lock.old lock.new }
{
    match message {
        Message::Apply { seat } => Ok(Reply::Applied(lock.apply(seat)?)),
        Message::Poll {
            seat,
            passage,
            coin,
        } => Ok(Reply::Stated(lock.poll(seat, passage, coin)?)),
        Message::GiveUp { seat, passage } => { Ok(Reply::Stated(lock.give_up(seat, passage)?)) }
        Message::Leave { seat, passage } => { Ok(Reply::Stated(lock.leave(seat, passage)?)) }
        Message::Look { seat } => Ok(Reply::Looked(lock.look(seat)?)),
        Message::Publish {
            seat,
            passage,
            text,
        } => Ok(Reply::Published(lock.publish(seat, passage)?, text)),
    }
}

ghost use Rattle.std.specs.Prelude.{◌≡◌, ◌+◌, ◌≤◌, ◌++◌, length, Ok};
ghost use Rattle.line.specs.Faults.{told_to};
ghost use Rattle.line.specs.Kinds.{kind_byte, kind_number};
ghost use Rattle.line.specs.Replies.{Written, content_of, content_size, refused_body, reply_body};

use crate::fault::LineFault;
use crate::kinds::Kind;
use layout::Passage;
use lock::View;
use seats::State;

// How long the longest reply is: that to a publish of 80 bytes.
pub(crate) const LONGEST: usize = 86;

// Memory for one reply. It is the caller's: the line allocates nothing.
pub(crate) type Room = [u8; LONGEST];

// What an accepted call answers on the line.
#[derive(Clone, Copy)]
pub(crate) enum Reply<'a> {
    Applied(Passage),
    Stated(State),
    Looked(View),
    Published(State, &'a [u8]),
}

// Writes the reply to an accepted message of a kind at the front of the memory. Answers how many bytes it has.
pub(crate) fn encode(kind: Kind, reply: Reply<'_>, room: &mut Room) -> usize
    requires { content_size reply ≤ 81 }
    ensures { Written (reply_body (kind_number kind) (Ok (content_of reply.entry))) room.old result room.new }
{
    let kind = u8::from(kind);
    match reply {
        Reply::Applied(passage) => {
            let [hi, lo] = passage.0.to_be_bytes();
            put_frame(&[kind, 0, hi, lo], &[], room)
        }
        Reply::Stated(state) => put_frame(&[kind, 0, state.number()], &[], room),
        Reply::Looked(view) => put_frame(&[kind, 0, view.state.number(), view.top], &[], room),
        Reply::Published(state, text) => put_frame(&[kind, 0, state.number()], text, room),
    }
}

// Writes the refusal of a message at the front of the memory; the kind is none where no message could be read. Answers
// how many bytes the refusal has.
pub(crate) fn refuse(kind: Option<Kind>, fault: LineFault, room: &mut Room) -> usize
    ensures { Written (refused_body (told_to (kind_byte kind) fault)) room.old result room.new }
{
    let kind = kind.map_or(0, u8::from);
    let told = fault.refusal(kind);
    let refusal = told.refusal;
    let [hi, lo] = refusal.cell.to_be_bytes();
    let body = [
        told.kind,
        refusal.number,
        refusal.seat.0,
        refusal.height,
        hi,
        lo,
    ];
    put_frame(&body, &[], room)
}

// Writes a frame, whose body is a head and a text, at the front of the memory. Answers how many bytes it has.
fn put_frame(head: &[u8], text: &[u8], room: &mut Room) -> usize
    requires { length head.now + length text.now ≤ 83 }
    ensures { Written (head.now ++ text.now) room.old result room.new }
{
    let size = head.len() + text.len();
    let [hi, lo] = (size as u16).to_be_bytes();
    let (header, body) = room.split_at_mut(3);
    header.copy_from_slice(&[1, hi, lo]);
    let (front, rest) = body.split_at_mut(head.len());
    front.copy_from_slice(head);
    rest[..text.len()].copy_from_slice(text);
    3 + size
}

ghost use Rattle.std.specs.Prelude.{◌≡◌};
ghost use Rattle.script.specs.Outs.{called_of, gave_up_of, left_of, longest_of};

use laws::Call;
use seats::State;

// How far a seat is on its way out, with the accepted polls since the give-up or the leave that began it.
#[derive(Clone, Copy)]
pub enum Out {
    // it has begun no way out in this passage
    Within,
    // it has given up, and is neither away nor holding yet
    GivingUp(u32),
    // it has given up, and has come to away or holding
    GaveUp(u32),
    // it has left, and is not away yet
    Leaving(u32),
    // it has left, and has come to away
    Left(u32),
}

impl Out {
    // How far the seat is after an accepted call, by its state afterwards.
    pub fn called(self, call: Call, state: State) -> Out
        ensures { result ≡ called_of self call state }
    {
        match call {
            Call::Apply { .. } => Out::Within,
            Call::GiveUp { .. } => gave_up(0, state),
            Call::Leave { .. } => Out::Leaving(0),
            Call::Publish { .. } => self,
            Call::Poll { .. } => match self {
                Out::GivingUp(polls) => gave_up(polls.saturating_add(1), state),
                Out::Leaving(polls) => left(polls.saturating_add(1), state),
                other => other,
            },
        }
    }
}

// A way out after a give-up, with so many polls.
fn gave_up(polls: u32, state: State) -> Out
    ensures { result ≡ gave_up_of polls state }
{
    match state {
        State::Away | State::Holding => Out::GaveUp(polls),
        State::Climbing | State::Leaving => Out::GivingUp(polls),
    }
}

// A way out after a leave, with so many polls.
fn left(polls: u32, state: State) -> Out
    ensures { result ≡ left_of polls state }
{
    match state {
        State::Away => Out::Left(polls),
        State::Climbing | State::Holding | State::Leaving => Out::Leaving(polls),
    }
}

// The most accepted polls on a way out, after a give-up and after a leave.
#[derive(Clone, Copy, Default)]
pub struct Longest {
    pub give_up: u32,
    pub leave: u32,
}

impl Longest {
    // The most when this way out is one of them.
    pub fn with(self, out: Out) -> Longest
        ensures { result ≡ longest_of self out }
    {
        match out {
            Out::Within => self,
            Out::GivingUp(polls) | Out::GaveUp(polls) => Longest {
                give_up: self.give_up.max(polls),
                ..self
            },
            Out::Leaving(polls) | Out::Left(polls) => Longest {
                leave: self.leave.max(polls),
                ..self
            },
        }
    }
}

use laws::Call;
use std::fmt;

// A call as a script writes it.
#[derive(Clone, Copy)]
pub struct Said(pub Call);

impl fmt::Display for Said {
    fn fmt<W: fmt::Write>(&self, f: &mut fmt::Formatter<W>) -> fmt::Result {
        match self.0 {
            Call::Apply { seat } => write!(f, "apply {seat}"),
            Call::Poll {
                seat,
                passage,
                coin,
            } => write!(f, "poll {seat} {passage} {coin}"),
            Call::GiveUp { seat, passage } => write!(f, "give-up {seat} {passage}"),
            Call::Leave { seat, passage } => write!(f, "leave {seat} {passage}"),
            Call::Publish { seat, passage } => write!(f, "publish {seat} {passage}"),
        }
    }
}

use crate::part::Part;
use std::fmt;

// What is wrong with a line.
#[derive(Clone, Copy, PartialEq, Eq, Debug)]
pub enum LineFault {
    // its first word is no call, and not `ways`
    Unknown,
    // it ends before this number
    Missing(Part),
    // this word has something else than digits
    NoNumber(Part),
    // this number is larger than its kind allows
    TooLarge(Part),
    // there are more words than the call takes
    TooMany,
}

impl fmt::Display for LineFault {
    fn fmt<W: fmt::Write>(&self, f: &mut fmt::Formatter<W>) -> fmt::Result {
        match self {
            LineFault::Unknown => f.pad("no such call"),
            LineFault::Missing(part) => write!(f, "the {part} is missing"),
            LineFault::NoNumber(part) => write!(f, "the {part} is not a number"),
            LineFault::TooLarge(part) => write!(f, "the {part} is larger than {}", part.most()),
            LineFault::TooMany => f.pad("too many words"),
        }
    }
}

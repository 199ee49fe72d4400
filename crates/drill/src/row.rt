// One line for each call.
use crate::turn::Turn;
use laws::{Call, Got};
use layout::Refusal;
use script::Said;
use seats::Seat;
use std::fmt;

// A call and what it got, as it is told.
#[derive(Clone, Copy)]
pub struct Report<'a> {
    number: usize,
    turn: Turn<'a>,
    got: Got,
}

impl<'a> Report<'a> {
    // The report of a call, which is told by its number from 1 on.
    pub fn new(at: usize, turn: Turn<'a>, got: Got) -> Report<'a> {
        Report {
            number: at.saturating_add(1),
            turn,
            got,
        }
    }
}

impl fmt::Display for Report<'_> {
    fn fmt<W: fmt::Write>(&self, f: &mut fmt::Formatter<W>) -> fmt::Result {
        let Turn { call, note } = self.turn;
        let number = self.number;
        let said = Said(call);
        let note = Note {
            lead: " ",
            text: note,
        };
        let answer = Answer {
            call,
            value: self.got.answer,
        };
        let Seat {
            state,
            height,
            top,
            ..
        } = self.got.seat;
        write!(
            f,
            "{number}: {said}{note}: {answer}; {state}, height {height}, top {top}"
        )
    }
}

// The text of a publish behind what leads to it, or nothing where it has no text.
#[derive(Clone, Copy)]
pub struct Note<'a> {
    pub lead: &'a str,
    pub text: &'a [u8],
}

impl fmt::Display for Note<'_> {
    fn fmt<W: fmt::Write>(&self, f: &mut fmt::Formatter<W>) -> fmt::Result {
        if self.text.is_empty() {
            return Ok(());
        }
        f.write_str(self.lead)?;
        match std::str::from_utf8(self.text) {
            Ok(text) => f.write_str(text),
            Err(_) => f.write_str("(not UTF-8)"),
        }
    }
}

// What a call was answered.
#[derive(Clone, Copy)]
struct Answer {
    call: Call,
    value: Result<u16, Refusal>,
}

impl fmt::Display for Answer {
    fn fmt<W: fmt::Write>(&self, f: &mut fmt::Formatter<W>) -> fmt::Result {
        match (self.value, self.call) {
            (Ok(passage), Call::Apply { .. }) => write!(f, "accepted, passage {passage}"),
            (Ok(_), _) => f.write_str("accepted"),
            (Err(refusal), _) => Refused(refusal).fmt(f),
        }
    }
}

// A refusal, with height and cell where a word did not fit.
#[derive(Clone, Copy)]
struct Refused(Refusal);

impl fmt::Display for Refused {
    fn fmt<W: fmt::Write>(&self, f: &mut fmt::Formatter<W>) -> fmt::Result {
        let Refusal {
            number,
            height,
            cell,
            ..
        } = self.0;
        // by the number, since what a call got is a refusal as it is told
        match number {
            10 => write!(f, "refused {number}, height {height}, cell {cell}"),
            _ => write!(f, "refused {number}"),
        }
    }
}

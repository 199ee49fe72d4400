ghost use Rattle.std.specs.Prelude.{◌≡◌};
ghost use Rattle.script.specs.Events.{event_of};

use seats::Place;
use std::fmt;

// What a poll may make of a seat at its gate.
#[derive(Clone, Copy, PartialEq, Eq, PartialOrd, Ord, Debug)]
pub enum Event {
    King,
    Queen,
    Pawn,
    Promoted,
    HandedOver,
    QueenGaveUp,
}

impl Event {
    // All of them, in the order in which they are told.
    pub const ALL: [Event; 6] = [
        Event::King,
        Event::Queen,
        Event::Pawn,
        Event::Promoted,
        Event::HandedOver,
        Event::QueenGaveUp,
    ];

    // What an accepted poll made of a seat that it took from one place to another.
    pub fn between(before: Place, after: Place) -> Option<Event>
        ensures { result ≡ event_of before after }
    {
        match (before, after) {
            (Place::RaceForRole, Place::MarkApply) => Some(Event::King),
            (Place::RaceForRole, Place::AwaitKing) => Some(Event::Queen),
            (Place::RaceForRole, Place::AwaitPromotion) => Some(Event::Pawn),
            (Place::AwaitPromotion, Place::MarkApply) => Some(Event::Promoted),
            (Place::AbortPawn, Place::WithdrawApply) => None,
            (Place::AbortPawn, _) => Some(Event::Promoted),
            (Place::HandOver, Place::ScanApply) => Some(Event::HandedOver),
            (Place::AbortQueen, Place::ScanApply) => Some(Event::QueenGaveUp),
            _ => None,
        }
    }
}

// The name of such events, as a count of them has it.
impl fmt::Display for Event {
    fn fmt<W: fmt::Write>(&self, f: &mut fmt::Formatter<W>) -> fmt::Result {
        f.pad(match self {
            Event::King => "kings",
            Event::Queen => "queens",
            Event::Pawn => "pawns",
            Event::Promoted => "promoted pawns",
            Event::HandedOver => "hand-overs",
            Event::QueenGaveUp => "queens who gave up",
        })
    }
}

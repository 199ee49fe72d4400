ghost use Rattle.std.specs.Prelude.{◌≡◌};
ghost use Rattle.steps.specs.Codes.{cell_at};

use layout::{Meeting, WayId};

// A cell of a gate.
#[derive(Clone, Copy)]
pub enum Cell {
    // who has taken the gate
    Count,
    // 0, the height up to which the king hands over, or 15 if the queen has gone
    SyncOne,
    // 0, or one more than the way of the first of king and queen to close
    SyncTwo,
    // the pawn word
    Pawns,
    // who has entered by a way
    Apply(WayId),
    // what it has become
    Role(WayId),
}

impl Cell {
    // Where it lies in the store.
    pub(crate) fn position(self, at: Meeting) -> usize
        ensures { result ≡ cell_at at self }
    {
        let base = usize::from(at.base);
        match self {
            Cell::Count => base,
            Cell::SyncOne => base + 1,
            Cell::SyncTwo => base + 2,
            Cell::Pawns => base + 3,
            Cell::Apply(way) => base + 4 + usize::from(way.0),
            Cell::Role(way) => base + 4 + usize::from(at.ways) + usize::from(way.0),
        }
    }
}

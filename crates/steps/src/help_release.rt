ghost use Rattle.std.specs.Prelude.{◌≡◌, ◌<◌, length};
ghost use Rattle.steps.specs.HelpRelease.{race_to_close_step, read_sync_two_step};
ghost use Rattle.steps.specs.Codes.{cell_at};
ghost use Rattle.steps.specs.Goes.{Goes, HasCell};
ghost use Rattle.steps.specs.Outcomes.{clears, strikes};

use crate::cells::Cell;
use crate::gate::Gate;
use crate::wins::closing_place;
use layout::{BoxFault, WayId};
use seats::{Place, Seat};
use store::Store;

// Sync2 has a number, one more than a way, and no `Option` of a way: in the store 0 is none.
impl<S: Store> Gate<'_, S> {
    // Place 56: of king and queen, the first to come closes, and the second frees the gate.
    pub(crate) fn race_to_close(&mut self, seat: &mut Seat) -> Result<(), BoxFault>
        ensures { Goes race_to_close_step self.old seat.old result self.new seat.new }
    {
        let own = u64::from(self.at.way.0) + 1;
        seat.place = if self.swap(Cell::SyncTwo, 0, own)? {
            closing_place(seat)
        } else {
            Place::ClearSyncOne
        };
        Ok(())
    }

    // Places 58, 60 and 67: empties a cell, and goes on at a place.
    pub(crate) fn clear(&mut self, cell: Cell, seat: &mut Seat, next: Place) -> Result<(), BoxFault>
        requires { HasCell self.old cell }
        ensures { Goes (clears cell next) self.old seat.old result self.new seat.new }
    {
        self.write(cell, 0)?;
        seat.place = next;
        Ok(())
    }

    // Place 59: keeps the way of the first to close.
    pub(crate) fn read_sync_two(&mut self, seat: &mut Seat) -> Result<(), BoxFault>
        ensures { Goes read_sync_two_step self.old seat.old result self.new seat.new }
    {
        let word = self.read(Cell::SyncTwo)?;
        if !(1..=u64::from(self.at.ways)).contains(&word) {
            return Err(self.unfit(Cell::SyncTwo));
        }
        seat.kept_way = WayId((word - 1) as u8);
        seat.place = Place::ClearSyncTwo;
        Ok(())
    }

    // Places 61 and 64: strikes a way out of the pawns, and goes on at a place. First it is the way of the first to
    // close, whom a collect may have registered, and then the seat's own.
    pub(crate) fn strike(
        &mut self,
        way: WayId,
        seat: &mut Seat,
        next: Place,
    ) -> Result<(), BoxFault>
        requires { way.0 < 4 }
        ensures { Goes (strikes way.0 next) self.old seat.old result self.new seat.new }
    {
        self.change_pawns(|pawns| pawns.remove(way))?;
        seat.place = next;
        Ok(())
    }
}

ghost use Rattle.std.specs.Prelude.{◌≡◌, ◌≤◌};
ghost use Rattle.steps.specs.Release.{read_role_step, open_alone_step, hand_over_step, read_apply_step, clear_apply_step};
ghost use Rattle.steps.specs.Goes.{Goes};

use crate::cells::Cell;
use crate::codes::{Mark, Role, Taken, pair};
use crate::gate::Gate;
use layout::{BoxFault, Passage, WayId};
use seats::{Place, Seat};
use store::Store;

impl<S: Store> Gate<'_, S> {
    // Place 35: goes on as the role asks.
    pub(crate) fn read_role(&mut self, seat: &mut Seat) -> Result<(), BoxFault>
        ensures { Goes read_role_step self.old seat.old result self.new seat.new }
    {
        let role = Cell::Role(self.at.way);
        seat.place = match Role::try_from(self.read(role)?) {
            Ok(Role::King) => Place::OpenAlone,
            Ok(Role::Queen) => Place::RaceToClose,
            Ok(Role::PromotedPawn) => Place::StrikeSelf,
            _ => return Err(self.unfit(role)),
        };
        Ok(())
    }

    // Place 36: a king with no queen opens the gate.
    pub(crate) fn open_alone(&mut self, seat: &mut Seat) -> Result<(), BoxFault>
        ensures { Goes open_alone_step self.old seat.old result self.new seat.new }
    {
        seat.place = if self.swap_count(Taken::ByKing, Taken::ByNobody)? {
            Place::ReadApply
        } else {
            Place::HandOver
        };
        Ok(())
    }

    // Place 37: the king hands his gates from this height up to the queen, unless she has gone.
    pub(crate) fn hand_over(&mut self, seat: &mut Seat) -> Result<(), BoxFault>
        ensures { Goes hand_over_step self.old seat.old result self.new seat.new }
    {
        if self.swap(Cell::SyncOne, 0, u64::from(seat.top))? {
            seat.handed = true;
            seat.scan = WayId(0);
            seat.place = Place::ScanApply;
        } else {
            seat.place = Place::RaceToClose;
        }
        Ok(())
    }

    // Place 48: keeps the number in its Apply.
    pub(crate) fn read_apply(&mut self, seat: &mut Seat) -> Result<(), BoxFault>
        ensures { Goes read_apply_step self.old seat.old result self.new seat.new }
    {
        let word = self.read(Cell::Apply(self.at.way))?;
        seat.kept_number = Passage((word / 4 % 16384) as u16);
        seat.place = Place::ClearApply;
        Ok(())
    }

    // Place 49: leaves its way, and goes on with the next height, or away.
    pub(crate) fn clear_apply(&mut self, seat: &mut Seat) -> Result<(), BoxFault>
        requires height { seat.old.height ≤ 3 }
        ensures { Goes clear_apply_step self.old seat.old result self.new seat.new }
    {
        let own = Cell::Apply(self.at.way);
        self.swap(own, pair(seat.kept_number, Mark::Pro), 0)?;
        if seat.handed || seat.height == seat.top {
            *seat = Seat::away();
        } else {
            seat.height += 1;
            seat.place = Place::ReadRole;
        }
        Ok(())
    }
}

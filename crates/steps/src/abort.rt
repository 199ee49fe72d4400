ghost use Rattle.std.specs.Prelude.{◌≡◌, ◌≤◌};
ghost use Rattle.layout.specs.Gates.{heights_of};
ghost use Rattle.steps.specs.Abort.{close_apply_step, abort_pawn_step, abort_queen_step, accept_gate_step, withdraw_apply_step};
ghost use Rattle.steps.specs.Goes.{Goes};

use crate::cells::Cell;
use crate::codes::{Mark, Role, pair};
use crate::gate::Gate;
use layout::{BoxFault, WayId};
use seats::{Place, Seat};
use store::Store;

// In Sync1: the queen has given up. A number and no enum, since beside it the cell holds heights.
const QUEEN_GONE: u64 = 15;

impl<S: Store> Gate<'_, S> {
    // Place 19: no longer waits for a promotion.
    pub(crate) fn close_apply(&mut self, seat: &mut Seat) -> Result<(), BoxFault>
        ensures { Goes close_apply_step self.old seat.old result self.new seat.new }
    {
        self.promote_pair(self.at.way, seat.passage)?;
        let role = self.read(Cell::Role(self.at.way))?;
        seat.place = if role == u64::from(Role::Queen) {
            Place::AbortQueen
        } else {
            Place::AbortPawn
        };
        Ok(())
    }

    // Place 21: leaves the pawns; one that is promoted already wins the gate.
    pub(crate) fn abort_pawn(&mut self, seat: &mut Seat) -> Result<(), BoxFault>
        requires passage { seat.old.passage.0 ≤ 16383 }
        requires height { seat.old.height ≤ heights_of self.old.at.ways }
        ensures { Goes abort_pawn_step self.old seat.old result self.new seat.new }
    {
        let way = self.at.way;
        if self.change_pawns(|pawns| pawns.abort(way, seat.passage))? {
            seat.place = Place::WithdrawApply;
        } else {
            self.write_role(Role::PromotedPawn)?;
            *seat = self.capture(Seat {
                aim: seat.height,
                ..*seat
            });
        }
        Ok(())
    }

    // Place 26: the queen tells that she has gone, unless the king has handed over already.
    pub(crate) fn abort_queen(&mut self, seat: &mut Seat) -> Result<(), BoxFault>
        ensures { Goes abort_queen_step self.old seat.old result self.new seat.new }
    {
        if self.swap(Cell::SyncOne, 0, QUEEN_GONE)? {
            seat.scan = WayId(0);
            seat.place = Place::ScanApply;
        } else {
            seat.place = Place::AcceptGate;
        }
        Ok(())
    }

    // Place 27: the queen wins what the king has handed over.
    pub(crate) fn accept_gate(&mut self, seat: &mut Seat) -> Result<(), BoxFault>
        ensures { Goes accept_gate_step self.old seat.old result self.new seat.new }
    {
        let word = self.read(Cell::SyncOne)?;
        let aim = self.handed_height(word, seat.height)?;
        *seat = self.capture(Seat { aim, ..*seat });
        Ok(())
    }

    // Place 32: leaves its way, and backs out.
    pub(crate) fn withdraw_apply(&mut self, seat: &mut Seat) -> Result<(), BoxFault>
        ensures { Goes withdraw_apply_step self.old seat.old result self.new seat.new }
    {
        let own = Cell::Apply(self.at.way);
        self.swap(own, pair(seat.passage, Mark::Pro), 0)?;
        *seat = seat.backs_out();
        Ok(())
    }
}

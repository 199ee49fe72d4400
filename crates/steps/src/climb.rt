ghost use Rattle.std.specs.Prelude.{◌≡◌, ◌≤◌};
ghost use Rattle.layout.specs.Gates.{heights_of};
ghost use Rattle.steps.specs.Climb.{claim_apply_step, race_for_role_step, await_promotion_step, recheck_count_step, await_king_step, mark_apply_step};
ghost use Rattle.steps.specs.Goes.{Goes};

use crate::cells::Cell;
use crate::codes::{Coin, Mark, Role, Taken, pair};
use crate::gate::Gate;
use layout::BoxFault;
use seats::{Place, Seat};
use store::Store;

impl<S: Store> Gate<'_, S> {
    // Place 2: enters by its way, if nobody is there.
    pub(crate) fn claim_apply(&mut self, seat: &mut Seat) -> Result<(), BoxFault>
        ensures { Goes claim_apply_step self.old seat.old result self.new seat.new }
    {
        let own = Cell::Apply(self.at.way);
        if self.swap(own, 0, pair(seat.passage, Mark::Reg))? {
            self.write_role(Role::Nobody)?;
            seat.place = Place::RaceForRole;
        }
        Ok(())
    }

    // Place 5: becomes king, queen or pawn, as the coin says, if that is to be had.
    pub(crate) fn race_for_role(&mut self, seat: &mut Seat, coin: Coin) -> Result<(), BoxFault>
        ensures { Goes (race_for_role_step coin) self.old seat.old result self.new seat.new }
    {
        match coin {
            Coin::TryKing => {
                if self.swap_count(Taken::ByNobody, Taken::ByKing)? {
                    self.write_role(Role::King)?;
                    seat.aim = seat.height;
                    seat.place = Place::MarkApply;
                }
            }
            Coin::TryQueen => {
                if self.swap_count(Taken::ByKing, Taken::ByBoth)? {
                    self.write_role(Role::Queen)?;
                    seat.place = Place::AwaitKing;
                }
            }
            Coin::TryPawn => {
                if self.read(Cell::Count)? == u64::from(Taken::ByBoth) {
                    self.write_role(Role::Pawn)?;
                    seat.place = Place::AwaitPromotion;
                }
            }
        }
        Ok(())
    }

    // Place 7: goes on as a promoted pawn, if it has been promoted.
    pub(crate) fn await_promotion(&mut self, seat: &mut Seat) -> Result<(), BoxFault>
        ensures { Goes await_promotion_step self.old seat.old result self.new seat.new }
    {
        if self.read(Cell::Apply(self.at.way))? == pair(seat.passage, Mark::Pro) {
            self.write_role(Role::PromotedPawn)?;
            seat.aim = seat.height;
            seat.place = Place::MarkApply;
        } else {
            seat.place = Place::RecheckCount;
        }
        Ok(())
    }

    // Place 8: tries for a role again, once the gate is no longer taken by king and queen.
    pub(crate) fn recheck_count(&mut self, seat: &mut Seat) -> Result<(), BoxFault>
        ensures { Goes recheck_count_step self.old seat.old result self.new seat.new }
    {
        seat.place = if self.read(Cell::Count)? == u64::from(Taken::ByBoth) {
            Place::AwaitPromotion
        } else {
            Place::RaceForRole
        };
        Ok(())
    }

    // Place 14: the queen waits until the king has handed over.
    pub(crate) fn await_king(&mut self, seat: &mut Seat) -> Result<(), BoxFault>
        ensures { Goes await_king_step self.old seat.old result self.new seat.new }
    {
        let word = self.read(Cell::SyncOne)?;
        if word == 0 {
            return Ok(());
        }
        seat.aim = self.handed_height(word, seat.height)?;
        seat.place = Place::MarkApply;
        Ok(())
    }

    // Place 16: wins the gates up to its aim.
    pub(crate) fn mark_apply(&mut self, seat: &mut Seat) -> Result<(), BoxFault>
        requires aim { seat.old.aim ≤ heights_of self.old.at.ways }
        ensures { Goes mark_apply_step self.old seat.old result self.new seat.new }
    {
        self.promote_pair(self.at.way, seat.passage)?;
        *seat = self.capture(*seat);
        Ok(())
    }
}

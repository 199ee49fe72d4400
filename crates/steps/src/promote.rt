ghost use Rattle.std.specs.Prelude.{◌≡◌, ◌<◌};
ghost use Rattle.steps.specs.Promote.{promote_pawn_step, open_gate_step, mark_promoted_step};
ghost use Rattle.steps.specs.Goes.{Goes};

use crate::codes::Taken;
use crate::gate::Gate;
use crate::wins::closing_place;
use layout::BoxFault;
use seats::{Place, Seat};
use store::Store;

impl<S: Store> Gate<'_, S> {
    // Place 65: promotes the first pawn, if one waits.
    pub(crate) fn promote_pawn(&mut self, seat: &mut Seat) -> Result<(), BoxFault>
        ensures { Goes promote_pawn_step self.old seat.old result self.new seat.new }
    {
        let ways = self.at.ways;
        let promoted = self.change_pawns(|pawns| pawns.promote(ways))?;
        if let Some((way, number)) = promoted {
            seat.kept_way = way;
            seat.kept_number = number;
            seat.place = Place::MarkPromoted;
        } else {
            seat.place = Place::ResetPawns;
        }
        Ok(())
    }

    // Place 68: opens the gate.
    pub(crate) fn open_gate(&mut self, seat: &mut Seat) -> Result<(), BoxFault>
        ensures { Goes open_gate_step self.old seat.old result self.new seat.new }
    {
        self.swap_count(Taken::ByBoth, Taken::ByNobody)?;
        seat.place = closing_place(seat);
        Ok(())
    }

    // Place 70: tells the promoted pawn, if that passage still waits there.
    pub(crate) fn mark_promoted(&mut self, seat: &mut Seat) -> Result<(), BoxFault>
        requires kept { seat.old.kept_way.0 < self.old.at.ways }
        ensures { Goes mark_promoted_step self.old seat.old result self.new seat.new }
    {
        self.promote_pair(seat.kept_way, seat.kept_number)?;
        seat.place = closing_place(seat);
        Ok(())
    }
}

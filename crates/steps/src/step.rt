ghost use Rattle.std.specs.Prelude.{◌≡◌};
ghost use Rattle.steps.specs.Goes.{Goes};
ghost use Rattle.steps.specs.Outcomes.{Ready};
ghost use Rattle.steps.specs.Polls.{step_of};

use crate::cells::Cell;
use crate::codes::Coin;
use crate::gate::Gate;
use layout::BoxFault;
use seats::{Place, Seat};
use store::Store;

impl<S: Store> Gate<'_, S> {
    // The step of the seat's place.
    // A `match`: the place is a variant in the seat's record, and a table of closures would list the places once more.
    pub(crate) fn step(&mut self, seat: &mut Seat, coin: Coin) -> Result<(), BoxFault>
        requires { Ready self.old.at.ways seat.old }
        ensures { Goes (step_of seat.old.place coin) self.old seat.old result self.new seat.new }
    {
        match seat.place {
            Place::Rest => Ok(()),
            Place::ClaimApply => self.claim_apply(seat),
            Place::RaceForRole => self.race_for_role(seat, coin),
            Place::AwaitPromotion => self.await_promotion(seat),
            Place::RecheckCount => self.recheck_count(seat),
            Place::AwaitKing => self.await_king(seat),
            Place::MarkApply => self.mark_apply(seat),
            Place::CloseApply => self.close_apply(seat),
            Place::AbortPawn => self.abort_pawn(seat),
            Place::AbortQueen => self.abort_queen(seat),
            Place::AcceptGate => self.accept_gate(seat),
            Place::WithdrawApply => self.withdraw_apply(seat),
            Place::ReadRole => self.read_role(seat),
            Place::OpenAlone => self.open_alone(seat),
            Place::HandOver => self.hand_over(seat),
            Place::ReadApply => self.read_apply(seat),
            Place::ClearApply => self.clear_apply(seat),
            Place::ScanApply => self.scan_apply(seat),
            Place::CollectPawns => self.collect_pawns(seat),
            Place::RaceToClose => self.race_to_close(seat),
            Place::ClearSyncOne => self.clear(Cell::SyncOne, seat, Place::ReadSyncTwo),
            Place::ReadSyncTwo => self.read_sync_two(seat),
            Place::ClearSyncTwo => self.clear(Cell::SyncTwo, seat, Place::StrikeOut),
            Place::StrikeOut => self.strike(seat.kept_way, seat, Place::StrikeSelf),
            Place::StrikeSelf => self.strike(self.at.way, seat, Place::PromotePawn),
            Place::PromotePawn => self.promote_pawn(seat),
            Place::ResetPawns => self.clear(Cell::Pawns, seat, Place::OpenGate),
            Place::OpenGate => self.open_gate(seat),
            Place::MarkPromoted => self.mark_promoted(seat),
        }
    }
}

ghost use Rattle.std.specs.Prelude.{◌≡◌, ◌<◌};
ghost use Rattle.steps.specs.Collect.{waiting, scan_apply_step, collect_pawns_step};
ghost use Rattle.steps.specs.Pawns.{Notable};
ghost use Rattle.steps.specs.Goes.{Goes};

use crate::cells::Cell;
use crate::codes::Mark;
use crate::gate::Gate;
use layout::{BoxFault, WayId};
use seats::{Place, Seat};
use store::Store;

impl<S: Store> Gate<'_, S> {
    // Place 52: notes who waits at the next way.
    pub(crate) fn scan_apply(&mut self, seat: &mut Seat) -> Result<(), BoxFault>
        requires scan { seat.old.scan.0 < self.old.at.ways }
        ensures { Goes scan_apply_step self.old seat.old result self.new seat.new }
    {
        let word = self.read(Cell::Apply(seat.scan))?;
        let way = seat.scan.0;
        seat.noted[usize::from(way)] = waiting_number(word);
        if way + 1 == self.at.ways {
            seat.scan = WayId(0);
            seat.place = Place::CollectPawns;
        } else {
            seat.scan = WayId(way + 1);
        }
        Ok(())
    }

    // Place 55: registers those that it has noted.
    pub(crate) fn collect_pawns(&mut self, seat: &mut Seat) -> Result<(), BoxFault>
        requires noted { Notable seat.old.noted }
        ensures { Goes collect_pawns_step self.old seat.old result self.new seat.new }
    {
        let ways = self.at.ways;
        self.change_pawns(|pawns| pawns.collect(ways, seat.noted))?;
        seat.place = Place::RaceToClose;
        Ok(())
    }
}

// The number of the passage that waits by an Apply word, or 0, as a seat notes it.
fn waiting_number(word: u64) -> u16
    ensures { result ≡ waiting word }
{
    match u16::try_from(word) {
        Ok(pair) if Mark::of(pair) == Mark::Reg => pair / 4,
        _ => 0,
    }
}

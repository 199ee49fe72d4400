ghost use Rattle.std.specs.Prelude.{◌≡◌, ◌%◌, ◌<◌, ◌≤◌, IfSome, Ok};
ghost use Rattle.steps.specs.declared.cells.Cell.TheVariants.{Pawns};
ghost use Rattle.steps.specs.Codes.{mark_number, pair};
ghost use Rattle.steps.specs.Goes.{SameGate};
ghost use Rattle.steps.specs.Outcomes.{word, put};
ghost use Rattle.std.specs.Option.{is_some, unwrap_or};
ghost use Rattle.std.specs.Fn.{FnOnceReturnsAtMut};
ghost use Rattle.steps.specs.Pawns.{lanes, packed, lane as lane_of, first_waiting_way, promote_word, promote_of, abort_of, remove_word, collect_lane, collect_word, Notable};

use crate::cells::Cell;
use crate::codes::{Mark, pair};
use crate::gate::Gate;
use layout::{BoxFault, Passage, WayId};
use std::array;
use store::Store;

// The pawn word: a passage number and a state for each way of a gate. The store's format is one word, no array of pairs.
// That a way is below 4 is asked where it has to be, and no invariant of `WayId`, which may hold any number.
#[derive(Clone, Copy, PartialEq, Eq, Debug)]
pub struct PawnSet(pub u64);

// Each method takes the pairs apart and packs them: the contract of one that took the change would be longer than that.
impl PawnSet {
    // Registers the noted passages of the ways below `ways`, but for those that are struck out.
    pub(crate) fn collect(&mut self, ways: u8, noted: [u16; 4])
        requires { Notable noted }
        ensures { self.new.0 ≡ collect_word self.old.0 ways noted }
    {
        let pairs = unpack(self.0);
        self.0 = pack(array::from_fn(|way| {
            if way < usize::from(ways) {
                collected(pairs[way], noted[way])
            } else {
                pairs[way]
            }
        }));
    }

    // Takes out a way that gives up as a passage, unless it is promoted already, and says whether it did.
    pub(crate) fn abort(&mut self, way: WayId, number: Passage) -> bool
        requires { (way.0 < 4) × (number.0 ≤ 16383) }
        ensures answer { result ≡ is_some (abort_of self.old.0 way.0 number.0) }
        ensures after { self.new.0 ≡ unwrap_or (abort_of self.old.0 way.0 number.0) self.old.0 }
    {
        let mut pairs = unpack(self.0);
        let i = usize::from(way.0);
        if Mark::of(pairs[i]) == Mark::Pro {
            return false;
        }
        pairs[i] = lane(number, Mark::Abort);
        self.0 = pack(pairs);
        true
    }

    // Promotes the lowest way below `ways` that waits, and answers it with its number.
    pub(crate) fn promote(&mut self, ways: u8) -> Option<(WayId, Passage)>
        ensures answer { result ≡ promote_of self.old.0 ways }
        ensures after { self.new.0 ≡ promote_word self.old.0 ways }
    {
        let mut pairs = unpack(self.0);
        let i = first_waiting(self.0, ways)?;
        let number = Passage(pairs[i] / 4);
        pairs[i] = lane(number, Mark::Pro);
        self.0 = pack(pairs);
        Some((WayId(i as u8), number))
    }

    // Strikes a way out.
    pub(crate) fn remove(&mut self, way: WayId)
        requires { way.0 < 4 }
        ensures { self.new.0 ≡ remove_word self.old.0 way.0 }
    {
        let mut pairs = unpack(self.0);
        let i = usize::from(way.0);
        pairs[i] = lane(Passage(pairs[i] / 4), Mark::Abort);
        self.0 = pack(pairs);
    }
}

impl<S: Store> Gate<'_, S> {
    // Changes the pawns, and answers what the change answers. The word is written back if it has changed.
    pub(crate) fn change_pawns<R: Drop, F: FnOnce(&mut PawnSet) -> R + Drop>(
        &mut self,
        change: F,
    ) -> Result<R, BoxFault>
        requires { F.IsAlwaysCallable change }
        ensures gate { SameGate self.old self.new }
        ensures changes { (r : R) × (x : PawnSet) × (result ≡ Ok r) × FnOnceReturnsAtMut F.FnOnce change (record { 0 = word (S.words self.old.store.now) self.old.at Pawns }) r x × (S.words self.new.store.now ≡ put (S.words self.old.store.now) self.old.at Pawns x.0) }
    {
        let before = PawnSet(self.read(Cell::Pawns)?);
        let mut after = before;
        let answer = change(&mut after);
        if after != before {
            self.write(Cell::Pawns, after.0)?;
        }
        Ok(answer)
    }
}

// The pairs of a word, that of way 0 first.
fn unpack(word: u64) -> [u16; 4]
    ensures { result ≡ lanes word }
{
    [word, word >> 16, word >> 32, word >> 48].map(|rest| (rest % 65536) as u16)
}

// The word of four pairs.
fn pack(pairs: [u16; 4]) -> u64
    ensures { result ≡ packed pairs }
{
    let [a, b, c, d] = pairs.map(u64::from);
    a + (b << 16) + (c << 32) + (d << 48)
}

// The pair of a passage number and a state.
fn lane(number: Passage, mark: Mark) -> u16
    requires { number.0 ≤ 16383 }
    ensures { result ≡ pair number.0 (mark_number mark) }
{
    pair(number, mark) as u16
}

// A pair after a collect of a noted number.
fn collected(pair: u16, noted: u16) -> u16
    requires { noted ≤ 16383 }
    ensures { result ≡ collect_lane pair noted }
{
    if noted == 0 || Mark::of(pair) == Mark::Abort {
        pair
    } else {
        lane(Passage(noted), Mark::Reg)
    }
}

// The lowest way below `ways` that waits.
fn first_waiting(word: u64, ways: u8) -> Option<usize>
    ensures value { result ≡ first_waiting_way word ways }
    ensures waits { IfSome result (λ i. (i < 4) × (lane_of word i % 4 ≡ 1)) }
{
    unpack(word)
        .iter()
        .take(usize::from(ways))
        .position(|pair| Mark::of(*pair) == Mark::Reg)
}

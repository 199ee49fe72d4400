ghost use Rattle.std.specs.Prelude.{◌≡◌, ◌<◌, ◌≤◌, length, Ok};
ghost use Rattle.layout.specs.Gates.{heights_of};
ghost use Rattle.layout.specs.Refusals.{refusal_of, unfit as unfit_word};
ghost use Rattle.steps.specs.Codes.{cell_at, taken_number, role_number};
ghost use Rattle.steps.specs.Outcomes.{Room, word, holds, put, swapped, pair_promoted};
ghost use Rattle.steps.specs.declared.cells.Cell.TheVariants.{Count, Role as RoleOf};

use crate::cells::Cell;
use crate::codes::{Mark, Role, Taken, pair};
use layout::{BoxFault, Meeting, Passage, WayId};
use store::Store;

// A gate as a seat meets it, in a store that has all its cells. The steps of the places are its methods. The seat is
// lent beside it and is no field: the store's loan is the gate's, and each step says of the two apart what it leaves.
#[derive(Drop)]
pub struct Gate<'a, S: Store> {
    store: &'a mut S,
    pub(crate) at: Meeting,
    ghost room: { Room at (length (S.words store.now)) },
}

impl<'a, S: Store> Gate<'a, S> {
    ghost use Rattle.steps.specs.Goes.{HasCell, SameGate};

    // The gate of a meeting.
    pub(crate) fn new(store: &'a mut S, at: Meeting) -> Gate<'a, S>
        requires { Room at (length (S.words store.old)) }
        ensures store { result.store.ghost_name ≡ store.entry.ghost_name }
        ensures words { result.store.now ≡ store.old }
        ensures at { result.at ≡ at }
    {
        Gate { store, at }
    }

    // The word in a cell.
    pub(crate) fn read(&mut self, cell: Cell) -> Result<u64, BoxFault>
        requires { HasCell self.old cell }
        ensures gate { SameGate self.old self.new }
        ensures answer { result ≡ Ok (word (S.words self.old.store.now) self.old.at cell) }
        ensures after { S.words self.new.store.now ≡ S.words self.old.store.now }
    {
        Ok(self.store.read(cell.position(self.at))?)
    }

    // Puts a word into a cell.
    pub(crate) fn write(&mut self, cell: Cell, word: u64) -> Result<(), BoxFault>
        requires { HasCell self.old cell }
        ensures gate { SameGate self.old self.new }
        ensures answer { result ≡ Ok tt }
        ensures after { S.words self.new.store.now ≡ put (S.words self.old.store.now) self.old.at cell word }
    {
        Ok(self.store.write(cell.position(self.at), word)?)
    }

    // Puts `new` into a cell that holds `old`, and says whether it did.
    pub(crate) fn swap(&mut self, cell: Cell, old: u64, new: u64) -> Result<bool, BoxFault>
        requires { HasCell self.old cell }
        ensures gate { SameGate self.old self.new }
        ensures answer { result ≡ Ok (holds (S.words self.old.store.now) self.old.at cell old) }
        ensures after { S.words self.new.store.now ≡ swapped (S.words self.old.store.now) self.old.at cell old new }
    {
        Ok(self.store.swap(cell.position(self.at), old, new)?)
    }

    // Lets the gate be taken by others than before, if it is taken as `old` says, and says whether it was.
    pub(crate) fn swap_count(&mut self, old: Taken, new: Taken) -> Result<bool, BoxFault>
        ensures gate { SameGate self.old self.new }
        ensures answer { result ≡ Ok (holds (S.words self.old.store.now) self.old.at Count (taken_number old)) }
        ensures after { S.words self.new.store.now ≡ swapped (S.words self.old.store.now) self.old.at Count (taken_number old) (taken_number new) }
    {
        self.swap(Cell::Count, u64::from(old), u64::from(new))
    }

    // Writes what the seat has become.
    pub(crate) fn write_role(&mut self, role: Role) -> Result<(), BoxFault>
        ensures gate { SameGate self.old self.new }
        ensures answer { result ≡ Ok tt }
        ensures after { S.words self.new.store.now ≡ put (S.words self.old.store.now) self.old.at (RoleOf self.old.at.way) (role_number role) }
    {
        self.write(Cell::Role(self.at.way), u64::from(role))
    }

    // Promotes the passage that waits at a way, if it is that one: it no longer waits for a promotion.
    pub(crate) fn promote_pair(&mut self, way: WayId, number: Passage) -> Result<(), BoxFault>
        requires { way.0 < self.old.at.ways }
        ensures gate { SameGate self.old self.new }
        ensures answer { result ≡ Ok tt }
        ensures after { S.words self.new.store.now ≡ pair_promoted (S.words self.old.store.now) self.old.at way number.0 }
    {
        let (waits, promoted) = (pair(number, Mark::Reg), pair(number, Mark::Pro));
        self.swap(Cell::Apply(way), waits, promoted)?;
        Ok(())
    }

    // The last height at which there is a gate.
    pub(crate) fn heights(&self) -> u8
        ensures { result ≡ heights_of self.now.at.ways }
    {
        self.at.ways - 1
    }

    // The fault of an unfit word in a cell.
    pub(crate) fn unfit(&self, cell: Cell) -> BoxFault
        requires { cell_at self.now.at cell ≤ 252 }
        ensures { refusal_of result ≡ unfit_word self.now.at.seat.0 self.now.at.height (cell_at self.now.at cell) }
    {
        BoxFault::Unfit {
            seat: self.at.seat,
            height: self.at.height,
            cell: cell.position(self.at) as u16,
        }
    }
}

ghost use Rattle.std.specs.Prelude.{◌≡◌, ◌≤◌, ◌++◌, length, drop, replicate, Ok, MatchResult};
ghost use Rattle.layout.specs.Refusals.{refusal_of};
ghost use Rattle.seats.specs.Seats.{away};
ghost use Rattle.lock.specs.Calls.{Opens, Unopened};

use layout::{BoxFault, BoxRecord, SeatId};
use seats::Seat;
use store::Store;

// Opens a box: its cells become 0, its seats away, and its first passage will have the number 1.
pub fn open<S: Store>(ways: u8, store: &mut S, table: &mut [Seat]) -> Result<BoxRecord, BoxFault>
    ensures { MatchResult result (λ b. Opens ways table.old (S.words store.old) b table.new (S.words store.new)) (λ e. Unopened ways table.old (S.words store.old) (refusal_of e) table.new (S.words store.new)) }
{
    let gate = BoxRecord::open(ways)?;
    let nobody = SeatId(0);
    if store.size() < gate.cells() {
        return Err(BoxFault::FewCells(nobody));
    }
    if table.len() < gate.seats() {
        return Err(BoxFault::FewSeats(nobody));
    }
    clear_cells(store, gate.cells())?;
    clear_seats(table, gate.seats());
    Ok(gate)
}

// Puts 0 into the first cells.
#[tactic(auto, using(std::proofs::lemmas::List::Edits::fill_more))]
fn clear_cells<S: Store>(store: &mut S, count: usize) -> Result<(), BoxFault>
    requires { count ≤ length (S.words store.old) }
    ensures answer { result ≡ Ok tt }
    ensures after { S.words store.new ≡ replicate count 0 ++ drop count (S.words store.old) }
{
    // by positions, since a store has no slice of its words
    for pos in 0..count {
        store.write(pos, 0)?;
    }
    Ok(())
}

// Makes the first seats away.
fn clear_seats(table: &mut [Seat], count: usize)
    requires { count ≤ length table.old }
    ensures { table.new ≡ replicate count away ++ drop count table.old }
{
    table[..count].fill(Seat::away());
}

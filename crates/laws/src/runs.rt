ghost use Rattle.std.specs.Prelude.{◌≡◌, ℕ, take, length, MatchResult, OnOk};
ghost use Rattle.lock.specs.Calls.{cleared};
ghost use Rattle.laws.specs.Law.{Law};
ghost use Rattle.laws.specs.Runs.{Performs, Unperformed};
ghost use Rattle.laws.specs.declared.runs.PerformFault.TheVariants.{Memory, Box};

use crate::call::{Call, Got};
use crate::make::make;
use layout::BoxFault;
use lock::{Lock, open};
use seats::Seat;
use std::alloc::{AllocError, Global};
use store::Store;

// Why a list of calls is not performed.
#[derive(Clone, Copy)]
pub enum PerformFault {
    // no memory for the answers
    Memory,
    // the opening was refused
    Box(BoxFault),
}

impl From<BoxFault> for PerformFault {
    ghost from_gives = { λ x y. y ≡ Box x };

    fn from(value: BoxFault) -> Self {
        PerformFault::Box(value)
    }
}

impl From<AllocError> for PerformFault {
    ghost from_gives = { λ x y. y ≡ Memory };

    fn from(_value: AllocError) -> Self {
        PerformFault::Memory
    }
}

// Opens a box, makes the calls one after the other, and answers what each of them got. The law of runs holds of the
// first k of them, for every k.
pub fn perform<S: Store>(
    heap: Global,
    ways: u8,
    store: &mut S,
    table: &mut [Seat],
    calls: &[Call],
) -> Result<Vec<Got>, PerformFault>
    ensures performs { MatchResult result (λ v. Performs ways table.old (S.words store.old) calls.now v.items table.new (S.words store.new)) (λ e. Unperformed ways table.old (S.words store.old) e table.new (S.words store.new)) }
    ensures law { OnOk result ((k : ℕ) → Law (take k calls.now) (cleared ways table.old (S.words store.old))) }
{
    let mut got = Vec::with_capacity(heap, calls.len())?;
    let mut record = open(ways, store, table)?;
    let mut lock = Lock {
        record: &mut record,
        store,
        table,
    };
    for call in calls {
        got.push(make(&mut lock, *call)).unwrap();
    }
    Ok(got)
}

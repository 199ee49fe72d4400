// A box of four ways to try calls on.
use crate::records;
use anyhow::anyhow;
use layout::{BoxFault, BoxRecord, Passage, Refusal, SeatId};
use lock::{Lock, open};
use seats::{Place, Seat};
use std::fmt;
use store::Memory;

// What a cell holds before the opening.
const OLD: u64 = 7;

// A call to try. It is no `laws::Call`: that one has no look, and its named fields would take five lines a call here.
#[derive(Clone, Copy)]
pub enum Call {
    Apply(SeatId),
    Poll(SeatId, Passage, u8),
    GiveUp(SeatId, Passage),
    Leave(SeatId, Passage),
    Publish(SeatId, Passage),
    Look(SeatId),
}

impl fmt::Display for Call {
    fn fmt<W: fmt::Write>(&self, f: &mut fmt::Formatter<W>) -> fmt::Result {
        match self {
            Call::Apply(seat) => write!(f, "application {seat}"),
            Call::Poll(seat, passage, coin) => write!(f, "poll {seat} {passage} {coin}"),
            Call::GiveUp(seat, passage) => write!(f, "give-up {seat} {passage}"),
            Call::Leave(seat, passage) => write!(f, "leave {seat} {passage}"),
            Call::Publish(seat, passage) => write!(f, "publish {seat} {passage}"),
            Call::Look(seat) => write!(f, "look {seat}"),
        }
    }
}

// A box of four ways, and a store and a table that need not fit it.
#[derive(Drop)]
pub struct Bed {
    record: BoxRecord,
    words: Vec<u64>,
    table: Vec<Seat>,
}

impl Bed {
    // A box that was opened over a table and a store that fit, and is then used with a table and a store of these sizes.
    pub fn new(rt: &HostRuntime, seats: usize, cells: usize) -> anyhow::Result<Bed> {
        let mut words = vec![in rt.alloc(); OLD; 252]?;
        let mut table = vec![in rt.alloc(); Seat::away(); 64]?;
        let record = open(
            4,
            &mut Memory::new(words.as_mut_slice()),
            table.as_mut_slice(),
        )
        .map_err(|_| anyhow!("not opened"))?;
        words.resize(cells, OLD)?;
        table.resize(seats, Seat::away())?;
        Ok(Bed {
            record,
            words,
            table,
        })
    }

    // Puts a record into the table.
    pub fn put(&mut self, at: usize, seat: Seat) {
        if let Some(place) = self.table.get_mut(at) {
            *place = seat;
        }
    }

    // Puts a word into the store.
    pub fn write(&mut self, pos: usize, word: u64) {
        if let Some(cell) = self.words.get_mut(pos) {
            *cell = word;
        }
    }

    // Makes a call that must be accepted.
    pub fn accepted(&mut self, call: Call) -> anyhow::Result<()> {
        self.perform(call).map_err(|_| anyhow!("refused"))
    }

    // Makes calls that must be refused, and prints each refusal.
    pub fn refused(&mut self, rt: &HostRuntime, calls: &[Call]) -> anyhow::Result<()> {
        for call in calls {
            self.refuse(rt, *call)?;
        }
        Ok(())
    }

    fn refuse(&mut self, rt: &HostRuntime, call: Call) -> anyhow::Result<()> {
        let words = self.words.clone()?;
        let table = self.table.clone()?;
        let answer = self.perform(call);
        let same = words == self.words && table == self.table;
        print!(rt; "{call}")?;
        tell(rt, answer, same)
    }

    fn perform(&mut self, call: Call) -> Result<(), BoxFault> {
        let mut lock = Lock {
            record: &mut self.record,
            store: &mut Memory::new(self.words.as_mut_slice()),
            table: self.table.as_mut_slice(),
        };
        match call {
            Call::Apply(seat) => lock.apply(seat).map(|_| ()),
            Call::Poll(seat, passage, coin) => lock.poll(seat, passage, coin).map(|_| ()),
            Call::GiveUp(seat, passage) => lock.give_up(seat, passage).map(|_| ()),
            Call::Leave(seat, passage) => lock.leave(seat, passage).map(|_| ()),
            Call::Publish(seat, passage) => lock.publish(seat, passage).map(|_| ()),
            Call::Look(seat) => lock.look(seat).map(|_| ()),
        }
    }
}

// An opening to try.
#[derive(Clone, Copy)]
pub struct Opening {
    pub ways: u8,
    pub seats: usize,
    pub cells: usize,
}

impl Opening {
    // Tries it over a table and a store that hold anything: it must be refused.
    pub fn refused(self, rt: &HostRuntime) -> anyhow::Result<()> {
        let Opening { ways, seats, cells } = self;
        let old = records::climbing(Place::MarkApply);
        let mut words = vec![in rt.alloc(); OLD; cells]?;
        let mut table = vec![in rt.alloc(); old; seats]?;
        let answer = open(
            ways,
            &mut Memory::new(words.as_mut_slice()),
            table.as_mut_slice(),
        )
        .map(|_| ());
        let same = words == vec![in rt.alloc(); OLD; cells]?
            && table == vec![in rt.alloc(); old; seats]?;
        print!(rt; "opening of {ways} ways over {seats} seats and {cells} cells")?;
        tell(rt, answer, same)
    }
}

fn tell(rt: &HostRuntime, answer: Result<(), BoxFault>, same: bool) -> anyhow::Result<()> {
    let Err(fault) = answer else {
        return Err(anyhow!("accepted"));
    };
    let Refusal {
        number,
        seat,
        height,
        cell,
    } = Refusal::from(fault);
    let change = if same { "nothing changed" } else { "CHANGED" };
    println!(rt; ": refused {number}, seat {seat}, height {height}, cell {cell}; {change}")?;
    Ok(())
}

// A random day: calls of a few busy seats, chosen by what a box in memory says of them.
use crate::dice::Dice;
use crate::plan::{CELLS, Plan, SEATS};
use anyhow::anyhow;
use laws::Call;
use layout::{BoxRecord, Passage, SeatId};
use lock::{Lock, open};
use seats::{Place, Seat, State};
use std::alloc::Global;
use store::Memory;

// The busy seats by ways: those of the first gate, so that king, queen and pawns meet, and one of another gate.
const BUSY_2: [u8; 2] = [0, 1];

const BUSY_3: [u8; 4] = [0, 1, 2, 3];

const BUSY_4: [u8; 6] = [0, 1, 2, 3, 4, 16];

// A day: its own box, and the calls that were made on it.
#[derive(Drop)]
pub struct Day {
    record: BoxRecord,
    words: Vec<u64>,
    table: Vec<Seat>,
    dice: Dice,
    calls: Vec<Call>,
}

impl Day {
    // A day without calls.
    pub fn new(heap: Global, ways: u8, seed: u64) -> anyhow::Result<Day> {
        let mut words = vec![in heap; 0; CELLS]?;
        let mut table = vec![in heap; Seat::away(); SEATS]?;
        let record = open(
            ways,
            &mut Memory::new(words.as_mut_slice()),
            table.as_mut_slice(),
        )
        .map_err(|_| anyhow!("the ways are not 2, 3 or 4"))?;
        Ok(Day {
            record,
            words,
            table,
            dice: Dice::new(seed),
            calls: Vec::new(heap),
        })
    }

    // The day as it is played, with calls that have no text.
    pub fn plan(self, heap: Global) -> Plan<'static> {
        Plan {
            ways: self.record.ways(),
            calls: self.calls,
            starts: Vec::new(heap),
            text: &[],
        }
    }

    // Adds a call, and makes it on the day's own box.
    pub fn add(&mut self) -> anyhow::Result<()> {
        let seat = self.busy();
        let record = self.table.get(usize::from(seat.0));
        let record = record.copied().unwrap_or(Seat::away());
        let call = self.choose(seat, record);
        self.make(call);
        self.calls.push(call)?;
        Ok(())
    }

    // One of the busy seats.
    fn busy(&mut self) -> SeatId {
        let seats: &[u8] = match self.record.ways() {
            2 => &BUSY_2,
            3 => &BUSY_3,
            _ => &BUSY_4,
        };
        let at = self.dice.below(6);
        let seat = seats.get(usize::from(at) % seats.len().max(1));
        SeatId(seat.copied().unwrap_or(0))
    }

    // A call that suits a seat, and now and then one that does not.
    fn choose(&mut self, seat: SeatId, record: Seat) -> Call {
        let passage = record.passage;
        if self.dice.lucky(6) {
            return self.stray(seat, record);
        }
        match record.state {
            State::Away => Call::Apply { seat },
            State::Climbing if !record.gave_up && self.dice.lucky(10) => {
                Call::GiveUp { seat, passage }
            }
            State::Holding if self.dice.lucky(100) => Call::Publish { seat, passage },
            State::Holding => Call::Leave { seat, passage },
            State::Climbing | State::Leaving => Call::Poll {
                seat,
                passage,
                coin: self.coin(seat, record),
            },
        }
    }

    // A call that is mostly refused: by an old passage, a seat in another state, a bad coin, or a seat that is not there.
    fn stray(&mut self, seat: SeatId, record: Seat) -> Call {
        let passage = record.passage;
        let old = Passage(passage.0.saturating_sub(1));
        match self.dice.below(6) {
            0 => Call::Poll {
                seat,
                passage: old,
                coin: 0,
            },
            1 => Call::Publish { seat, passage: old },
            2 => Call::Apply { seat },
            3 => Call::GiveUp { seat, passage },
            4 => Call::Poll {
                seat,
                passage,
                coin: 3,
            },
            _ => Call::Apply { seat: SeatId(64) },
        }
    }

    // The coin that wins a role at the gate where the seat stands, or any.
    fn coin(&mut self, seat: SeatId, record: Seat) -> u8 {
        let any = self.dice.below(3);
        if record.place != Place::RaceForRole || self.dice.lucky(64) {
            return any;
        }
        match self.count(seat, record.height) {
            Some(count @ 0..=2) => count as u8,
            _ => any,
        }
    }

    // Count of the gate that a seat meets at a height.
    fn count(&self, seat: SeatId, height: u8) -> Option<u64> {
        let meeting = self.record.path(seat)?.meets(height)?;
        self.words.get(usize::from(meeting.base)).copied()
    }

    // Makes a call on the day's own box. What it answers shows in the record of its seat.
    fn make(&mut self, call: Call) {
        let mut lock = Lock {
            record: &mut self.record,
            store: &mut Memory::new(self.words.as_mut_slice()),
            table: self.table.as_mut_slice(),
        };
        let _ = call.make(&mut lock);
    }
}

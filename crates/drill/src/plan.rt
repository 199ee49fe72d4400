// What is played: read from a script, or a random day.
use crate::account::Account;
use crate::row::Report;
use crate::turn::Turn;
use anyhow::anyhow;
use laws::{Call, Got, PerformFault, perform};
use layout::Refusal;
use script::{Entry, read_script};
use seats::Seat;
use store::Store;

// How many seats the largest box has.
pub const SEATS: usize = 64;

// How many cells the largest box has.
pub const CELLS: usize = 252;

// What is told of a run.
#[derive(Clone, Copy, PartialEq, Eq)]
pub enum Detail {
    // a line for each call, and the summary
    Lines,
    // the summary alone
    Summary,
}

// The ways of a box, and the calls that are made on it, in order.
#[derive(Drop)]
pub struct Plan<'a> {
    pub ways: u8,
    // apart from where their lines begin, since the box is lent the calls as they are: a list of both would be a second
    // copy of each call
    pub calls: Vec<Call>,
    // where in the text the line of each call begins; none where no text says the calls
    pub starts: Vec<usize>,
    pub text: &'a [u8],
}

impl<'a> Plan<'a> {
    // The plan that a script says.
    pub fn read(rt: &HostRuntime, text: &'a [u8]) -> anyhow::Result<Plan<'a>> {
        let script = read_script(rt.alloc(), text)?;
        let entries = script.entries.as_slice();
        Ok(Plan {
            ways: script.ways,
            calls: entries.iter().map(|entry| entry.call).collect(rt.alloc())?,
            starts: entries.iter().map(|entry| entry.start).collect(rt.alloc())?,
            text,
        })
    }

    // Opens a box and makes the calls.
    pub fn play<S: Store>(&self, rt: &HostRuntime, store: &mut S) -> anyhow::Result<Vec<Got>> {
        let mut table = vec![in rt.alloc(); Seat::away(); SEATS]?;
        perform(
            rt.alloc(),
            self.ways,
            store,
            table.as_mut_slice(),
            self.calls.as_slice(),
        )
        .map_err(|fault| match fault {
            PerformFault::Memory => anyhow!("no memory for the answers"),
            PerformFault::Box(fault) => {
                let number = Refusal::from(fault).number;
                anyhow!("the opening is refused with {number}")
            }
        })
    }

    // Tells what the calls got, and sums it up.
    pub fn tell(&self, rt: &HostRuntime, got: &[Got], detail: Detail) -> anyhow::Result<()> {
        let mut account = Account::new(rt.alloc())?;
        for (at, (call, got)) in self.calls.iter().zip(got).enumerate() {
            account.take(at, *call, *got)?;
            if detail == Detail::Lines {
                let report = Report::new(at, self.turn(at, *call), *got);
                println!(rt; "{report}")?;
            }
        }
        account.tell(rt, self)
    }

    // A call with the text that it has.
    pub fn turn(&self, at: usize, call: Call) -> Turn<'a> {
        match self.starts.get(at) {
            Some(start) => Turn::written(
                Entry {
                    call,
                    start: *start,
                },
                self.text,
            ),
            None => Turn::silent(call),
        }
    }
}

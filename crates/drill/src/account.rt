// The summary of a run.
use crate::plan::{Plan, SEATS};
use crate::row::Note;
use laws::{Call, Got};
use layout::{Passage, SeatId};
use script::{Event, Longest, Out, Refusals};
use seats::{Seat, State};
use std::alloc::{AllocError, Global};
use std::collections::BTreeMap;
use std::fmt;

// A time for which a seat held the right, by the numbers of calls.
#[derive(Clone, Copy)]
struct Holding {
    seat: SeatId,
    passage: Passage,
    from: usize,
    // the call that ended it, if one has
    till: Option<usize>,
}

impl fmt::Display for Holding {
    fn fmt<W: fmt::Write>(&self, f: &mut fmt::Formatter<W>) -> fmt::Result {
        let Holding {
            seat,
            passage,
            from,
            till,
        } = *self;
        let from = from.saturating_add(1);
        write!(
            f,
            "held: seat {seat}, passage {passage}, from call {from} to "
        )?;
        match till {
            Some(till) => write!(f, "call {}", till.saturating_add(1)),
            None => f.write_str("the end"),
        }
    }
}

// What is remembered of a seat.
#[derive(Clone, Copy)]
struct Course {
    record: Seat,
    out: Out,
}

// A publish that was accepted. Its text is found when it is told: beside each publish it would double what is kept.
#[derive(Clone, Copy)]
struct Published {
    at: usize,
    seat: SeatId,
    passage: Passage,
}

impl Published {
    // The call that it was.
    fn call(self) -> Call {
        let Published { seat, passage, .. } = self;
        Call::Publish { seat, passage }
    }
}

// A publish with its text, as it is told.
#[derive(Clone, Copy)]
struct PublishLine<'a> {
    published: Published,
    text: &'a [u8],
}

impl fmt::Display for PublishLine<'_> {
    fn fmt<W: fmt::Write>(&self, f: &mut fmt::Formatter<W>) -> fmt::Result {
        let Published { at, seat, passage } = self.published;
        let number = at.saturating_add(1);
        let note = Note {
            lead: ": ",
            text: self.text,
        };
        write!(
            f,
            "published: call {number}, seat {seat}, passage {passage}{note}"
        )
    }
}

// What is kept of the calls so far.
#[derive(Drop)]
pub struct Account {
    courses: Vec<Course>,
    holdings: Vec<Holding>,
    published: Vec<Published>,
    events: BTreeMap<Event, u32>,
    refusals: Refusals,
    longest: Longest,
    // the most seats that ever held at once
    most_holders: usize,
    calls: usize,
    accepted: usize,
}

impl Account {
    // The account of a run without calls.
    pub fn new(heap: Global) -> Result<Account, AllocError> {
        let course = Course {
            record: Seat::away(),
            out: Out::Within,
        };
        Ok(Account {
            courses: vec![in heap; course; SEATS]?,
            holdings: Vec::new(heap),
            published: Vec::new(heap),
            events: BTreeMap::new(heap),
            refusals: Refusals::none(),
            longest: Longest::default(),
            most_holders: 0,
            calls: 0,
            accepted: 0,
        })
    }

    // Takes the next call into account.
    pub fn take(&mut self, at: usize, call: Call, got: Got) -> Result<(), AllocError> {
        self.calls = self.calls.saturating_add(1);
        if let Err(refusal) = got.answer {
            self.refusals.add(refusal.number);
            return Ok(());
        }
        self.accepted = self.accepted.saturating_add(1);
        let seat = call.seat();
        let Some(course) = self.courses.get_mut(usize::from(seat.0)) else {
            return Ok(());
        };
        let before = *course;
        let after = Course {
            record: got.seat,
            out: before.out.called(call, got.seat.state),
        };
        *course = after;
        self.longest = self.longest.with(after.out);
        match call {
            Call::Poll { .. } => self.count(before.record, after.record)?,
            Call::Publish { seat, passage } => self
                .published
                .push(Published { at, seat, passage })?,
            _ => {}
        }
        self.hold(at, seat, before.record, after.record)
    }

    // Counts what a poll has made of a seat.
    fn count(&mut self, before: Seat, after: Seat) -> Result<(), AllocError> {
        if let Some(event) = Event::between(before.place, after.place) {
            let count = self.events.entry(event)?.or_insert(0);
            *count = count.saturating_add(1);
        }
        Ok(())
    }

    // Notes where a holding begins or ends.
    fn hold(
        &mut self,
        at: usize,
        seat: SeatId,
        before: Seat,
        after: Seat,
    ) -> Result<(), AllocError> {
        match (before.state, after.state) {
            (State::Holding, State::Holding) => {}
            (State::Holding, _) => {
                let mut latest = self.holdings.iter_mut().rev();
                if let Some(holding) = latest.find(|holding| holding.seat == seat) {
                    holding.till = Some(at);
                }
            }
            (_, State::Holding) => {
                self.holdings.push(Holding {
                    seat,
                    passage: after.passage,
                    from: at,
                    till: None,
                })?;
                self.most_holders = self.most_holders.max(self.holders());
            }
            _ => {}
        }
        Ok(())
    }

    // How many seats hold now.
    fn holders(&self) -> usize {
        self.courses
            .iter()
            .filter(|course| course.record.state == State::Holding)
            .count()
    }

    // Tells the summary of the calls of a plan that were made.
    pub fn tell(&self, rt: &HostRuntime, plan: &Plan<'_>) -> anyhow::Result<()> {
        let refused = self.calls.saturating_sub(self.accepted);
        println!(rt;
            "calls: {}, accepted {}, refused {refused}",
            self.calls, self.accepted
        )?;
        for holding in &self.holdings {
            println!(rt; "{holding}")?;
        }
        let times = self.holdings.len();
        println!(rt; "holdings: {times}, at most {} at once", self.most_holders)?;
        for published in &self.published {
            let text = plan.turn(published.at, published.call()).note;
            let line = PublishLine {
                published: *published,
                text,
            };
            println!(rt; "{line}")?;
        }
        self.tell_counts(rt)
    }

    // Tells what happened at the gates, the refusals by number, and the longest ways out.
    fn tell_counts(&self, rt: &HostRuntime) -> anyhow::Result<()> {
        for event in Event::ALL {
            let count = self.events.get(&event).copied().unwrap_or(0);
            println!(rt; "{event}: {count}")?;
        }
        // by the numbers as they are told
        for number in 1..11 {
            let count = self.refusals.with(number);
            if count > 0 {
                println!(rt; "refused {number}: {count}")?;
            }
        }
        let Longest { give_up, leave } = self.longest;
        println!(rt; "longest way out: {give_up} polls after a give-up, {leave} after a leave")?;
        Ok(())
    }
}

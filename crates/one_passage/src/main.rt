// Takes one seat through a whole passage, with publish, for 2, 3 and 4 ways, over each kind of store, and prints it.
#![tactic(auto)]

use anyhow::anyhow;
use known::known_values;
use layout::{BoxFault, Passage, SeatId, Ways};
use lock::{Lock, open};
use seats::{Seat, State};
use store::{Image, Memory, Store};

// No passage of a lone seat takes more polls than this from one state to the next.
const MOST_POLLS: u8 = 32;

// The coin that tries to become king, a byte as a poll takes it.
const KING: u8 = 0;

fn main(rt: HostRuntime) -> anyhow::Result<()> {
    run(&rt)
}

fn run(rt: &HostRuntime) -> anyhow::Result<()> {
    let polls = known_values();
    println!(rt; "a lone seat needs {polls} polls a height")?;
    for (ways, seat) in [(2, SeatId(1)), (3, SeatId(4)), (4, SeatId(27))] {
        in_memory(rt, ways, seat)?;
        in_image(rt, ways, seat)?;
    }
    Ok(())
}

// Over words in memory that hold anything before the opening.
fn in_memory(rt: &HostRuntime, ways: u8, seat: SeatId) -> anyhow::Result<()> {
    let mut cells = vec![in rt.alloc(); 99; 252]?;
    let mut store = Memory::new(cells.as_mut_slice());
    println!(rt; "ways {ways}, seat {seat}, in memory")?;
    passage(rt, &mut store, ways, seat)
}

// Over an image of 252 words.
fn in_image(rt: &HostRuntime, ways: u8, seat: SeatId) -> anyhow::Result<()> {
    let mut bytes = vec![in rt.alloc(); 0; 2021]?;
    bytes.as_mut_slice()[0..5].copy_from_slice(&[1, 0, 0, 0, 252]);
    let mut store = Image::open(bytes.as_mut_slice()).map_err(|_| anyhow!("no image"))?;
    println!(rt; "ways {ways}, seat {seat}, in an image")?;
    passage(rt, &mut store, ways, seat)
}

// One passage, from the application to away again.
fn passage<S: Store>(
    rt: &HostRuntime,
    store: &mut S,
    ways: u8,
    seat: SeatId,
) -> anyhow::Result<()> {
    let mut table = vec![in rt.alloc(); Seat::away(); 64]?;
    let table = table.as_mut_slice();
    let mut record = open(ways, store, table).map_err(|_| anyhow!("not opened"))?;
    let mut lock = Lock {
        record: &mut record,
        store,
        table,
    };
    let number = lock.apply(seat).map_err(|_| anyhow!("no passage"))?;
    println!(rt; "application: passage {number}")?;
    polls(rt, &mut lock, seat, number, State::Holding)?;
    tell(rt, "publish", lock.publish(seat, number))?;
    tell(rt, "leave", lock.leave(seat, number))?;
    polls(rt, &mut lock, seat, number, State::Away)?;
    for height in 1..ways {
        cells(rt, &mut lock, seat, height)?;
    }
    Ok(())
}

// Polls until the seat has come to a state.
fn polls<S: Store>(
    rt: &HostRuntime,
    lock: &mut Lock<'_, S>,
    seat: SeatId,
    number: Passage,
    until: State,
) -> anyhow::Result<()> {
    for _ in 0..MOST_POLLS {
        let before = lock
            .table
            .get(usize::from(seat.0))
            .copied()
            .ok_or_else(|| anyhow!("no such seat"))?;
        let place = before.place.number();
        let height = before.height;
        let state = lock
            .poll(seat, number, KING)
            .map_err(|_| anyhow!("poll refused"))?;
        println!(rt; "poll: place {place} at height {height}, then {state}")?;
        if state == until {
            return Ok(());
        }
    }
    Err(anyhow!("too many polls"))
}

fn tell(rt: &HostRuntime, call: &str, answer: Result<State, BoxFault>) -> anyhow::Result<()> {
    let state = answer.map_err(|_| anyhow!("refused"))?;
    println!(rt; "{call}: {state}")?;
    Ok(())
}

// The cells of the gate that the seat meets at a height.
fn cells<S: Store>(
    rt: &HostRuntime,
    lock: &mut Lock<'_, S>,
    seat: SeatId,
    height: u8,
) -> anyhow::Result<()> {
    let path = lock
        .record
        .path(seat)
        .ok_or_else(|| anyhow!("no such seat"))?;
    let at = path.meets(height).ok_or_else(|| anyhow!("no such height"))?;
    let base = at.base;
    let ways = Ways::try_from(at.ways).map_err(|_| anyhow!("no such ways"))?;
    let size = ways.cells_per_gate();
    print!(rt; "cells {base} up:")?;
    // by positions, since a store has no slice of its words
    for pos in base..base.saturating_add(size) {
        let word = lock
            .store
            .read(usize::from(pos))
            .map_err(|_| anyhow!("no such cell"))?;
        print!(rt; " {word}")?;
    }
    println!(rt; "")?;
    Ok(())
}

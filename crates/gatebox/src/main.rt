// Serves a box of four ways in memory: messages on standard input, replies on standard output.
#![tactic(auto)]

use anyhow::anyhow;
use line::{Cursor, Pause, answer_all};
use lock::{Lock, open};
use seats::Seat;
use std::io::{Read, Write};
use store::{Memory, Store};

// How many bytes are read at once, and how many reply bytes are written at once at the most.
const BLOCK: usize = 65536;

fn main(rt: HostRuntime) -> anyhow::Result<()> {
    run(&rt)
}

// Opens the box as `sessions` does: a crate for these ten lines would be longer than they are.
fn run(rt: &HostRuntime) -> anyhow::Result<()> {
    let mut cells = vec![in rt.alloc(); 0; 252]?;
    let mut table = vec![in rt.alloc(); Seat::away(); 64]?;
    let mut store = Memory::new(cells.as_mut_slice());
    let table = table.as_mut_slice();
    let mut record = open(4, &mut store, table).map_err(|_| anyhow!("the box was not opened"))?;
    let mut lock = Lock {
        record: &mut record,
        store: &mut store,
        table,
    };
    serve(rt, &mut lock)
}

// Reads block after block, and answers every whole message before it waits for more.
fn serve<S: Store>(rt: &HostRuntime, lock: &mut Lock<'_, S>) -> anyhow::Result<()> {
    let mut block = vec![in rt.alloc(); 0; BLOCK]?;
    let mut replies = vec![in rt.alloc(); 0; BLOCK]?;
    let mut input: Vec<u8> = Vec::new(rt.alloc());
    // a count and no `loop`: no proof can know that the input ends
    for _ in 0..u64::MAX {
        let count = rt.stdin().read(block.as_mut_slice())?;
        input.extend_from_slice(&block.as_slice()[..count])?;
        let ended = count == 0;
        let over = reply(rt, lock, &mut input, ended, replies.as_mut_slice())?;
        if over || ended {
            return Ok(());
        }
    }
    Ok(())
}

// Answers every whole message of the input, and keeps the rest. Answers whether the session is over.
fn reply<S: Store>(
    rt: &HostRuntime,
    lock: &mut Lock<'_, S>,
    input: &mut Vec<u8>,
    ended: bool,
    replies: &mut [u8],
) -> anyhow::Result<bool> {
    let mut place = Cursor { at: 0 };
    // a count here too: of a `loop` with a measure the goals outgrew the memory of the check
    for _ in 0..u64::MAX {
        let progress = answer_all(lock, &mut place, input.as_slice(), ended, replies);
        rt.stdout().write_all(&replies[..progress.written])?;
        match progress.pause {
            Pause::Room => {}
            Pause::Input => break,
            Pause::Done => return Ok(true),
        }
    }
    let at = place.at.min(input.len());
    *input = input.split_off(at)?;
    Ok(false)
}

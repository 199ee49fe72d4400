// Plays written sessions: each is served by a box of its own, and its replies are printed.
//
// A line of the input is a comment (#), which is printed, or the bytes of a message in hex. An empty line ends a session.
#![tactic(auto)]

mod hex;
mod opened;
mod spent;

use line::{Cursor, Pause, answer_all};
use lock::Lock;
use opened::on_new_box;
use spent::spent_numbers;
use std::io::{BufRead, BufReader};
use store::Store;

// Room for all replies of a session.
const ROOM: usize = 65536;

fn main(rt: HostRuntime) -> anyhow::Result<()> {
    run(&rt)
}

fn run(rt: &HostRuntime) -> anyhow::Result<()> {
    let mut input = Vec::new(rt.alloc());
    for line in BufReader::new(rt.alloc(), rt.stdin())?.lines(rt.alloc()) {
        let line = line?;
        if line.as_str().is_empty() {
            play(rt, input.as_slice())?;
            input.clear();
        } else if line.as_str().starts_with('#') {
            println!(rt; "{line}")?;
        } else {
            hex::read(line.as_bytes(), &mut input)?;
        }
    }
    play(rt, input.as_slice())?;
    spent_numbers(rt)
}

// Serves one session on a new box, and prints its replies.
fn play(rt: &HostRuntime, input: &[u8]) -> anyhow::Result<()> {
    on_new_box(rt, |lock| serve(rt, lock, input))
}

// Serves one session, and prints its replies.
fn serve<S: Store>(rt: &HostRuntime, lock: &mut Lock<'_, S>, input: &[u8]) -> anyhow::Result<()> {
    let mut replies = vec![in rt.alloc(); 0; ROOM]?;
    let mut place = Cursor { at: 0 };
    let progress = answer_all(lock, &mut place, input, true, replies.as_mut_slice());
    hex::print(rt, &replies.as_slice()[..progress.written])?;
    let at = place.at;
    let end = match progress.pause {
        Pause::Input => "end of input",
        Pause::Room => "out of room",
        Pause::Done => "session over",
    };
    println!(rt; "{end} at byte {at}")?;
    println!(rt; "")?;
    Ok(())
}

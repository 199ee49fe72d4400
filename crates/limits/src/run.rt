// One run: a script is played on a box of its own, and its ways out are measured.
use anyhow::anyhow;
use laws::{Call, Got, PerformFault, perform};
use layout::Refusal;
use script::{Longest, Out, Script, read_script};
use seats::Seat;
use store::Memory;

// How many seats the largest box has.
const SEATS: usize = 64;

// How many cells the largest box has.
const CELLS: usize = 252;

// The longest ways out of the run that a script for so many ways says.
pub fn longest(rt: &HostRuntime, ways: u8, text: &str) -> anyhow::Result<Longest> {
    let script = read_script(rt.alloc(), text.as_bytes())?;
    if script.ways != ways {
        return Err(anyhow!("the script is for {} ways, not for {ways}", script.ways));
    }
    let got = play(rt, &script)?;
    measure(rt, &script, got.as_slice())
}

// Opens a box in memory and makes the calls.
fn play(rt: &HostRuntime, script: &Script) -> anyhow::Result<Vec<Got>> {
    let mut cells = vec![in rt.alloc(); 0; CELLS]?;
    let mut table = vec![in rt.alloc(); Seat::away(); SEATS]?;
    let calls: Vec<Call> = script
        .entries
        .iter()
        .map(|entry| entry.call)
        .collect(rt.alloc())?;
    perform(
        rt.alloc(),
        script.ways,
        &mut Memory::new(cells.as_mut_slice()),
        table.as_mut_slice(),
        calls.as_slice(),
    )
    .map_err(|fault| match fault {
        PerformFault::Memory => anyhow!("no memory for the answers"),
        PerformFault::Box(fault) => {
            let number = Refusal::from(fault).number;
            anyhow!("the opening is refused with {number}")
        }
    })
}

// The longest of the ways out that came to their ends. No call of these runs is to be refused.
fn measure(rt: &HostRuntime, script: &Script, got: &[Got]) -> anyhow::Result<Longest> {
    let mut outs = vec![in rt.alloc(); Out::Within; SEATS]?;
    let mut longest = Longest::default();
    for (entry, got) in script.entries.iter().zip(got) {
        let call = entry.call;
        if let Err(refusal) = got.answer {
            return Err(anyhow!("a call is refused with {}", refusal.number));
        }
        if let Some(out) = outs.get_mut(usize::from(call.seat().0)) {
            *out = out.called(call, got.seat.state);
            if matches!(out, Out::GaveUp(_) | Out::Left(_)) {
                longest = longest.with(*out);
            }
        }
    }
    Ok(longest)
}

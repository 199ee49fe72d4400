// Plays a script of calls, or a random day, on a box, and tells what each call got and how it all went.
#![tactic(auto)]

mod account;
mod day;
mod dice;
mod plan;
mod row;
mod turn;

use anyhow::anyhow;
use day::Day;
use plan::{CELLS, Detail, Plan};
use std::process::ExitCode;
use std::{env, fs};
use store::{Image, Memory};

fn main(rt: HostRuntime) -> ExitCode {
    let Err(fault) = run(&rt) else {
        return ExitCode::SUCCESS;
    };
    // an Err would be told a second time, and there is nowhere left to say that it could not be told
    let _ = eprintln!(rt; "drill: {fault}");
    ExitCode::FAILURE
}

// Does what the words of the command line say.
fn run(rt: &HostRuntime) -> anyhow::Result<()> {
    let words: Vec<String> = env::args(rt)?.collect(rt.alloc())?;
    let words: Vec<&str> = words.iter().map(|word| word.as_str()).collect(rt.alloc())?;
    match words.as_slice() {
        [_, path] => in_memory(rt, path),
        [_, path, image] => in_image(rt, path, image),
        [_, "random", ways, seed, calls] => random(rt, ways, seed, calls, Detail::Lines),
        [_, "soak", ways, seed, calls] => random(rt, ways, seed, calls, Detail::Summary),
        _ => Err(anyhow!(
            "usage: drill SCRIPT [IMAGE] | drill random WAYS SEED CALLS | drill soak WAYS SEED CALLS"
        )),
    }
}

// The bytes of a file.
fn bytes_of(rt: &HostRuntime, path: &str) -> anyhow::Result<Vec<u8>> {
    fs::read(rt, path).map_err(|fault| anyhow!("{path}: {fault}"))
}

// Plays a script on a box in memory.
fn in_memory(rt: &HostRuntime, path: &str) -> anyhow::Result<()> {
    let text = bytes_of(rt, path)?;
    let plan = Plan::read(rt, text.as_slice())?;
    let mut cells = vec![in rt.alloc(); 0; CELLS]?;
    let got = plan.play(rt, &mut Memory::new(cells.as_mut_slice()))?;
    plan.tell(rt, got.as_slice(), Detail::Lines)
}

// Plays a script on an image, and writes the image back.
fn in_image(rt: &HostRuntime, path: &str, image: &str) -> anyhow::Result<()> {
    let text = bytes_of(rt, path)?;
    let plan = Plan::read(rt, text.as_slice())?;
    let mut bytes = bytes_of(rt, image)?;
    let got = {
        let mut store = Image::open(bytes.as_mut_slice()).map_err(|fault| {
            let number = fault.number();
            anyhow!("{image}: no image, refused with {number}")
        })?;
        plan.play(rt, &mut store)?
    };
    fs::write(rt, image, bytes.as_slice())?;
    plan.tell(rt, got.as_slice(), Detail::Lines)
}

// Plays a random day on a box in memory.
fn random(
    rt: &HostRuntime,
    ways: &str,
    seed: &str,
    calls: &str,
    detail: Detail,
) -> anyhow::Result<()> {
    let (Ok(ways), Ok(seed), Ok(count)) = (
        ways.parse::<u8>(),
        seed.parse::<u64>(),
        calls.parse::<u32>(),
    ) else {
        return Err(anyhow!("WAYS, SEED and CALLS have to be numbers that fit 8, 64 and 32 bits"));
    };
    let mut day = Day::new(rt.alloc(), ways, seed)?;
    for _ in 0..count {
        day.add()?;
    }
    let plan = day.plan(rt.alloc());
    let mut cells = vec![in rt.alloc(); 0; CELLS]?;
    let got = plan.play(rt, &mut Memory::new(cells.as_mut_slice()))?;
    plan.tell(rt, got.as_slice(), detail)
}

// Writes back what it reads, block by block: the reading and writing of `gatebox`, and no box.
#![tactic(auto)]

use std::io::{Read, Write};

// How many bytes are read at once.
const BLOCK: usize = 65536;

fn main(rt: HostRuntime) -> anyhow::Result<()> {
    run(&rt)
}

// Writes every block back before it waits for the next one.
fn run(rt: &HostRuntime) -> anyhow::Result<()> {
    let mut block = vec![in rt.alloc(); 0; BLOCK]?;
    // a count and no `loop`: no proof can know that the input ends
    for _ in 0..u64::MAX {
        let count = rt.stdin().read(block.as_mut_slice())?;
        if count == 0 {
            return Ok(());
        }
        rt.stdout().write_all(&block.as_slice()[0..count])?;
    }
    Ok(())
}

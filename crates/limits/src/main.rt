// Plays runs in which a way out takes as many polls as it ever can, and prints how many they are.
#![tactic(auto)]

mod run;
mod scripts;

use run::longest;
use script::Longest;
use scripts::{GIVE_UP_FOUR, GIVE_UP_THREE, GIVE_UP_TWO, LEAVE_FOUR, LEAVE_THREE, LEAVE_TWO};

fn main(rt: HostRuntime) -> anyhow::Result<()> {
    tell(&rt)
}

fn tell(rt: &HostRuntime) -> anyhow::Result<()> {
    for (ways, after_give_up, after_leave) in [
        (4, GIVE_UP_FOUR, LEAVE_FOUR),
        (3, GIVE_UP_THREE, LEAVE_THREE),
        (2, GIVE_UP_TWO, LEAVE_TWO),
    ] {
        let Longest { give_up, .. } = longest(rt, ways, after_give_up)?;
        let Longest { leave, .. } = longest(rt, ways, after_leave)?;
        println!(rt;
            "{ways} ways: a give-up that takes {give_up} polls, a leave that takes {leave}"
        )?;
    }
    Ok(())
}

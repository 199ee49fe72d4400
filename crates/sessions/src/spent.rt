// The session in which the passage numbers are spent, too long to be written down.
use crate::hex;
use crate::opened::on_new_box;
use line::{Cursor, answer_all};
use lock::Lock;
use store::Store;

// Gives out every number by application and give-up, and prints the replies to the last pair and to what follows.
pub fn spent_numbers(rt: &HostRuntime) -> anyhow::Result<()> {
    on_new_box(rt, |lock| spend_all(rt, lock))
}

// The same on a box that is given.
fn spend_all<S: Store>(rt: &HostRuntime, lock: &mut Lock<'_, S>) -> anyhow::Result<()> {
    println!(rt; "# 8: numbers that are spent, after 16,383 passages")?;
    spend(lock);
    tell(rt, lock, &pair(16383))?;
    tell(rt, lock, &[1, 0, 2, 1, 9, 1, 0, 2, 5, 9])
}

// An application of seat 9, and the give-up of its passage.
fn pair(n: u16) -> [u8; 12] {
    let [high, low] = n.to_be_bytes();
    [1, 0, 2, 1, 9, 1, 0, 4, 3, 9, high, low]
}

// Gives out every number but the last.
fn spend<S: Store>(lock: &mut Lock<'_, S>) {
    for n in 1..16383u16 {
        answer_all(lock, &mut Cursor { at: 0 }, &pair(n), true, &mut [0; 172]);
    }
}

// Serves some messages, and prints their replies.
fn tell<S: Store>(rt: &HostRuntime, lock: &mut Lock<'_, S>, input: &[u8]) -> anyhow::Result<()> {
    let mut replies = [0; 172];
    let progress = answer_all(lock, &mut Cursor { at: 0 }, input, true, &mut replies);
    hex::print(rt, &replies[..progress.written])
}

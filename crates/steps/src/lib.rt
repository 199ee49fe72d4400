// One seat's poll: the step of its place, over the cells of the gate that it meets.
#![tactic(auto)]

mod abort;
mod cells;
mod climb;
mod codes;
mod collect;
mod gate;
mod help_release;
mod pawns;
mod poll;
mod promote;
mod release;
mod step;
mod wins;

pub use poll::poll_seat;

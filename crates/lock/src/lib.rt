// The box: one exclusive right among the seats of a table, over a store of cells. Every call is refused or does one step.
#![tactic(auto)]

mod calls;
pub mod locks;
mod opening;
mod polling;
mod questions;

pub use calls::View;
pub use locks::Lock;
pub use opening::open;

// Runs of calls on one box: a box is opened, and a list of calls is performed on it.
#![tactic(auto)]

pub mod call;
mod make;
pub mod runs;

pub use call::{Call, Got};
pub use runs::{PerformFault, perform};

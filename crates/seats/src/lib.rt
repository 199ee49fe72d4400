// The seat record: its states and places, when it is lawful, and which gates it keeps.
#![tactic(auto)]

mod lawful;
pub mod place;
pub mod seat;
pub mod state;

pub use place::Place;
pub use seat::Seat;
pub use state::State;

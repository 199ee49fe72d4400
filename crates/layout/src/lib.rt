// The box's layout: seats, ways and gates, the box record, and why a call is refused.
#![tactic(auto)]

mod boxes;
pub mod fault;
pub mod ids;
mod meets;
pub mod path;
pub mod record;
pub mod ways;

pub use fault::{BoxFault, Refusal};
pub use ids::{Passage, SeatId, WayId};
pub use path::{Meeting, Path};
pub use record::BoxRecord;
pub use ways::Ways;

// The message line: reads messages from bytes, has the box serve them, and writes the replies as bytes.
#![tactic(auto)]

pub mod fault;
mod kinds;
mod messages;
mod reader;
mod replies;
mod serving;
pub mod session;
pub mod stream;

pub use fault::{LineFault, LineRefusal};
pub use kinds::Kind;
pub use messages::Message;
pub use reader::{Cursor, next_message};
pub use session::{Answered, answer};
pub use stream::{Pause, Progress, answer_all, waits};

// Scripts of calls: reading one from text, and keeping account of what its calls got.
#![tactic(auto)]

pub mod event;
pub mod fault;
mod fields;
mod line;
mod lines;
mod out;
pub mod part;
mod reader;
mod refusals;
mod rows;
mod say;
pub mod scripts;
mod verb;
mod words;

pub use event::Event;
pub use fault::LineFault;
pub use out::{Longest, Out};
pub use part::Part;
pub use refusals::Refusals;
pub use say::Said;
pub use scripts::{Entry, Script, ScriptFault, note_at, read_script};

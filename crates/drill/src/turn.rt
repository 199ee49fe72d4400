// One call of a run, as it is told.
use laws::Call;
use script::{Entry, note_at};

// A call, with the text of a publish that has one.
#[derive(Clone, Copy)]
pub struct Turn<'a> {
    pub call: Call,
    // for the people who read along, and empty where there is none
    pub note: &'a [u8],
}

impl<'a> Turn<'a> {
    // A call as the text of a script has it.
    pub fn written(entry: Entry, text: &'a [u8]) -> Turn<'a> {
        let call = entry.call;
        let note = match call {
            Call::Publish { .. } => note_at(text, entry.start),
            _ => &[],
        };
        Turn { call, note }
    }

    // A call without a text.
    pub fn silent(call: Call) -> Turn<'a> {
        Turn { call, note: &[] }
    }
}

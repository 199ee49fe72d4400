ghost use Rattle.std.specs.Prelude.{◌≡◌, min, length, drop, Ok, Err, MatchResult};
ghost use Rattle.script.specs.declared.scripts.ScriptFault.TheVariants.{Memory};
ghost use Rattle.script.specs.Words.{row_of};
ghost use Rattle.script.specs.Lines.{line_of, note_of};
ghost use Rattle.script.specs.Rows.{placed_of};
ghost use Rattle.script.specs.Scripts.{ended_of, gathered, or_memory, script_of, script_taken, step_of, next_ways};

use crate::fault::LineFault;
use crate::line::Line;
use crate::lines::{note_of, read_line};
use crate::rows::{Row, Rows};
use crate::words::{first_row, from_place};
use laws::Call;
use std::alloc::{AllocError, Global};
use std::error::Error;
use std::fmt;
use std::iter::repeat_n;

// A call of a script.
#[derive(Clone, Copy)]
pub struct Entry {
    pub call: Call,
    // where in the text the line of the call begins
    pub start: usize,
}

// A script: the ways of its box, and its calls in order.
#[derive(Drop)]
pub struct Script {
    pub ways: u8,
    pub entries: Vec<Entry>,
}

// Why a text is no script.
#[derive(Clone, Copy, Debug)]
pub enum ScriptFault {
    // no memory for its calls
    Memory,
    // it has no line that says the ways
    NoWays,
    // a call stands before the line that says the ways
    Early { row: usize },
    // the ways are said twice
    Twice { row: usize },
    // a line is wrong
    Wrong { row: usize, fault: LineFault },
}

impl fmt::Display for ScriptFault {
    fn fmt<W: fmt::Write>(&self, f: &mut fmt::Formatter<W>) -> fmt::Result {
        match self {
            ScriptFault::Memory => f.pad("no memory for the script"),
            ScriptFault::NoWays => f.pad("the script has no line `ways N`"),
            ScriptFault::Early { row } => write!(f, "line {row}: `ways N` has to come first"),
            ScriptFault::Twice { row } => write!(f, "line {row}: the ways are said a second time"),
            ScriptFault::Wrong { row, fault } => write!(f, "line {row}: {fault}"),
        }
    }
}

impl Error for ScriptFault {}

impl From<AllocError> for ScriptFault {
    ghost from_gives = { λ x y. y ≡ Memory };

    fn from(_value: AllocError) -> Self {
        ScriptFault::Memory
    }
}

// What has been read of a script.
#[derive(Drop)]
pub(crate) struct Reading {
    ways: Option<u8>,
    entries: Vec<Entry>,
}

// Reads a script from its text.
pub fn read_script(heap: Global, text: &[u8]) -> Result<Script, ScriptFault>
    ensures { MatchResult result (λ s. script_of text.now ≡ Ok (script_taken s)) (λ e. or_memory e (script_of text.now ≡ Err e)) }
{
    let mut reading = Reading {
        ways: None,
        entries: Vec::new(heap),
    };
    for row in Rows::of(text) {
        reading.take(row)?;
    }
    reading.end()
}

impl Reading {
    // Takes a row.
    fn take(&mut self, row: Row<'_>) -> Result<(), ScriptFault>
        ensures { MatchResult result (λ _. step_of (placed_of row.entry) (gathered self.old) (line_of row.entry.line.now) ≡ Ok (gathered self.new)) (λ e. or_memory e (step_of (placed_of row.entry) (gathered self.old) (line_of row.entry.line.now) ≡ Err e)) }
    {
        let Row {
            number,
            start,
            line,
        } = row;
        let said = read_line(line).map_err(|fault| ScriptFault::Wrong { row: number, fault })?;
        self.ways = ways_after(self.ways, said, number)?;
        if let Line::Calls { call, times } = said {
            self.entries
                .extend(repeat_n(Entry { call, start }, usize::from(times)))?;
        }
        Ok(())
    }

    // The script, when all of it has been read.
    fn end(self) -> Result<Script, ScriptFault>
        ensures { MatchResult result (λ s. ended_of (gathered self) ≡ Ok (script_taken s)) (λ e. ended_of (gathered self) ≡ Err e) }
    {
        let Reading { ways, entries } = self;
        let ways = ways.ok_or(ScriptFault::NoWays)?;
        Ok(Script { ways, entries })
    }
}

// The ways after a line: they are said once, before any call.
fn ways_after(ways: Option<u8>, said: Line, row: usize) -> Result<Option<u8>, ScriptFault>
    ensures { result ≡ next_ways ways said row }
{
    match (said, ways) {
        (Line::Blank, _) => Ok(ways),
        (Line::Ways(ways), None) => Ok(Some(ways)),
        (Line::Ways(_), Some(_)) => Err(ScriptFault::Twice { row }),
        (Line::Calls { .. }, None) => Err(ScriptFault::Early { row }),
        (Line::Calls { .. }, Some(_)) => Ok(ways),
    }
}

// The text of the publish whose line begins at a place of the script's text.
#[tactic(auto, using(std::proofs::lemmas::List::drop_min))]
pub fn note_at(text: &[u8], start: usize) -> &[u8]
    ensures { result.now ≡ note_of (row_of (drop (min start (length text.now)) text.now)) }
{
    note_of(first_row(from_place(text, start)))
}

ghost use Rattle.std.specs.Prelude.{◌≡◌};
ghost use Rattle.script.specs.declared.line.Line.TheVariants.{Calls};
ghost use Rattle.script.specs.Lines.{apply_line_answer, give_up_line_answer, leave_line_answer, line_of, note_of, poll_line_answer, publish_line_answer, ways_line_answer};
ghost use Rattle.script.specs.Words.{rest_of};

use crate::fault::LineFault;
use crate::line::Line;
use crate::part::Part;
use crate::reader::{Own, Reader};
use crate::verb::Verb;
use crate::words::{cut, first_word, indented, is_note, trimmed};
use laws::Call;
use layout::SeatId;

// What a line of a script says, or what is wrong with it.
pub(crate) fn read_line(line: &[u8]) -> Result<Line, LineFault>
    ensures { result ≡ line_of line.now }
{
    let mut words = Reader { rest: line };
    let name = words.word();
    if name.is_empty() {
        return Ok(Line::Blank);
    }
    match Verb::named(name).ok_or(LineFault::Unknown)? {
        Verb::Ways => ways_line(words),
        Verb::Apply => apply_line(words),
        Verb::Poll => poll_line(words),
        Verb::GiveUp => give_up_line(words),
        Verb::Leave => leave_line(words),
        Verb::Publish => publish_line(words),
    }
}

// The text of a publish: what stands behind the passage, up to a comment and without blanks at its ends.
pub(crate) fn note_of(line: &[u8]) -> &[u8]
    ensures { result.now ≡ note_of line.now }
{
    let text = behind(behind(behind(line)));
    let (note, _) = cut(indented(text), is_note);
    trimmed(note)
}

// The text behind its first word.
fn behind(text: &[u8]) -> &[u8]
    ensures { result.now ≡ rest_of text.now }
{
    first_word(text).1
}

// `ways N`, behind its first word.
fn ways_line(mut words: Reader<'_>) -> Result<Line, LineFault>
    ensures { result ≡ ways_line_answer words.entry.rest.now }
{
    let ways = words.number(Part::Ways)? as u8;
    words.end()?;
    Ok(Line::Ways(ways))
}

// `apply SEAT`, behind its first word.
fn apply_line(mut words: Reader<'_>) -> Result<Line, LineFault>
    ensures { result ≡ apply_line_answer words.entry.rest.now }
{
    let seat = SeatId(words.number(Part::Seat)? as u8);
    words.end()?;
    Ok(once(Call::Apply { seat }))
}

// `poll SEAT PASSAGE COIN` with perhaps a number of times, behind its first word.
fn poll_line(mut words: Reader<'_>) -> Result<Line, LineFault>
    ensures { result ≡ poll_line_answer words.entry.rest.now }
{
    let Own { seat, passage } = words.own()?;
    let coin = words.number(Part::Coin)? as u8;
    let times = words.times()?;
    words.end()?;
    let call = Call::Poll {
        seat,
        passage,
        coin,
    };
    Ok(Line::Calls { call, times })
}

// `give-up SEAT PASSAGE`, behind its first word. It is no one function with the next: a contract over the constructor
// that it would take is longer than either.
fn give_up_line(mut words: Reader<'_>) -> Result<Line, LineFault>
    ensures { result ≡ give_up_line_answer words.entry.rest.now }
{
    let Own { seat, passage } = words.own()?;
    words.end()?;
    Ok(once(Call::GiveUp { seat, passage }))
}

// `leave SEAT PASSAGE`, behind its first word.
fn leave_line(mut words: Reader<'_>) -> Result<Line, LineFault>
    ensures { result ≡ leave_line_answer words.entry.rest.now }
{
    let Own { seat, passage } = words.own()?;
    words.end()?;
    Ok(once(Call::Leave { seat, passage }))
}

// `publish SEAT PASSAGE` with perhaps a text, behind its first word.
fn publish_line(mut words: Reader<'_>) -> Result<Line, LineFault>
    ensures { result ≡ publish_line_answer words.entry.rest.now }
{
    let Own { seat, passage } = words.own()?;
    Ok(once(Call::Publish { seat, passage }))
}

// A call that is made once.
fn once(call: Call) -> Line
    ensures { result ≡ Calls call 1 }
{
    Line::Calls { call, times: 1 }
}

ghost use Rattle.std.specs.Prelude.{◌≡◌, ◌≤◌, IfOk};
ghost use Rattle.script.specs.Fields.{digit_of, field_of, most_of, times_of};

use crate::fault::LineFault;
use crate::part::Part;

// A number with one decimal digit more.
fn longer(value: u16, byte: u8, part: Part) -> Result<u16, LineFault>
    ensures { result ≡ digit_of part value byte }
{
    if !byte.is_ascii_digit() {
        return Err(LineFault::NoNumber(part));
    }
    let more = 10 * u32::from(value) + u32::from(byte - b'0');
    if more > u32::from(part.most()) {
        return Err(LineFault::TooLarge(part));
    }
    Ok(more as u16)
}

// The number that a word of decimal digits says.
#[tactic(auto, using(crate::proofs::FieldLaws::digits_step), unfolding(crate::specs::Fields::field_of))]
pub(crate) fn field(word: &[u8], part: Part) -> Result<u16, LineFault>
    ensures value { result ≡ field_of part word.now }
    ensures bound { IfOk result (λ n. n ≤ most_of part) }
{
    if word.is_empty() {
        return Err(LineFault::Missing(part));
    }
    let mut value = 0;
    for byte in word {
        value = longer(value, *byte, part)?;
    }
    Ok(value)
}

// How many times a call is made: once, or as a word such as `x9` says.
pub(crate) fn times(word: &[u8]) -> Result<u16, LineFault>
    ensures { result ≡ times_of word.now }
{
    match word {
        [] => Ok(1),
        [b'x', digits @ ..] => field(digits, Part::Times),
        _ => Err(LineFault::TooMany),
    }
}

ghost use Rattle.std.specs.Prelude.{◌≡◌, ℕ, Bool, take, drop};
ghost use Rattle.std.specs.List.{prefix_len};
ghost use Rattle.script.specs.Words.{Computes, indented_of, is_blank_byte, is_letter_byte, is_note_byte, rest_of, row_of, trimmed_of, word_of};

// Whether a byte is a space, a tab or a carriage return.
pub(crate) fn is_blank(byte: u8) -> bool
    ensures { result ≡ is_blank_byte byte }
{
    matches!(byte, b' ' | b'\t' | b'\r')
}

// Whether a word goes on with a byte: it is neither blank nor `#`.
pub(crate) fn is_letter(byte: u8) -> bool
    ensures { result ≡ is_letter_byte byte }
{
    !is_blank(byte) && byte != b'#'
}

// Whether a note goes on with a byte: it is neither `#` nor a carriage return.
pub(crate) fn is_note(byte: u8) -> bool
    ensures { result ≡ is_note_byte byte }
{
    !matches!(byte, b'#' | b'\r')
}

// A text, cut before its first byte that does not pass a test.
pub(crate) fn cut<F: Fn(u8) -> bool>(text: &[u8], passes: F) -> (&[u8], &[u8])
    requires { F.IsAlwaysCallable passes }
    ensures { (test : ℕ → Bool) → Computes (F.post passes) test → let front = prefix_len test text.now in (result.0.now ≡ take front text.now) × (result.1.now ≡ drop front text.now) }
{
    let front = text.iter().take_while(|byte| passes(**byte)).count();
    text.split_at(front)
}

// A text from a place on, empty where it is shorter.
pub(crate) fn from_place(text: &[u8], place: usize) -> &[u8]
    ensures { result.now ≡ drop place text.now }
{
    text.get(place..).unwrap_or(&[])
}

// A text without the blanks that it begins with.
pub(crate) fn indented(text: &[u8]) -> &[u8]
    ensures { result.now ≡ indented_of text.now }
{
    cut(text, is_blank).1
}

// A text without the blanks that it ends with.
pub(crate) fn trimmed(text: &[u8]) -> &[u8]
    ensures { result.now ≡ trimmed_of text.now }
{
    let blanks = text
        .iter()
        .rev()
        .take_while(|byte| is_blank(**byte))
        .count();
    &text[..text.len() - blanks]
}

// The first word of a text, and the text behind it. The word is empty where the text has none.
#[tactic(auto, unfolding(crate::specs::Words::word_of, crate::specs::Words::rest_of))]
pub(crate) fn first_word(text: &[u8]) -> (&[u8], &[u8])
    ensures word { result.0.now ≡ word_of text.now }
    ensures rest { result.1.now ≡ rest_of text.now }
{
    cut(indented(text), is_letter)
}

// The first row of a text: what stands before its first line feed.
pub(crate) fn first_row(text: &[u8]) -> &[u8]
    ensures { result.now ≡ row_of text.now }
{
    cut(text, |byte| byte != b'\n').0
}

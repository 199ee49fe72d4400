ghost use Rattle.std.specs.Prelude.{◌≡◌};
ghost use Rattle.script.specs.Lines.{verb_of};

// What a line does, by its first word.
#[derive(Clone, Copy)]
pub(crate) enum Verb {
    Ways,
    Apply,
    Poll,
    GiveUp,
    Leave,
    Publish,
}

impl Verb {
    // The verb of a name, if there is one.
    pub(crate) fn named(word: &[u8]) -> Option<Verb>
        ensures { result ≡ verb_of word.now }
    {
        match word {
            b"ways" => Some(Verb::Ways),
            b"apply" => Some(Verb::Apply),
            b"poll" => Some(Verb::Poll),
            b"give-up" => Some(Verb::GiveUp),
            b"leave" => Some(Verb::Leave),
            b"publish" => Some(Verb::Publish),
            _ => None,
        }
    }
}

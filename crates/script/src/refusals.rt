ghost use Rattle.std.specs.Prelude.{◌≡◌, replicate};
ghost use Rattle.script.specs.Counts.{count_of, counted_of};

// How many calls were refused, by the number of the refusal as it is told, which is 1 to 10.
#[derive(Clone, Copy)]
pub struct Refusals {
    // a map would allocate, and `add` cannot fail
    counts: [u32; 11],
}

impl Refusals {
    // None.
    pub fn none() -> Refusals
        ensures { result.counts ≡ replicate 11 0 }
    {
        Refusals { counts: [0; 11] }
    }

    // One more with this number. Other numbers are not counted, since no call is refused with one.
    pub fn add(&mut self, number: u8)
        ensures { self.new.counts ≡ counted_of self.old.counts number }
    {
        let at = usize::from(number);
        // tried `get_mut`: a proof then knows the array's length, and none of its counts
        if at < self.counts.len() {
            self.counts[at] = self.counts[at].saturating_add(1);
        }
    }

    // How many have this number.
    pub fn with(&self, number: u8) -> u32
        ensures { result ≡ count_of self.now.counts number }
    {
        self.counts.get(usize::from(number)).copied().unwrap_or(0)
    }
}

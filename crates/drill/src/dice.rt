// Numbers that look random and are the same for the same seed (xorshift64*).
#[derive(Drop)]
pub struct Dice {
    state: u64,
}

// The state 0 would stay 0 for ever.
const FOR_ZERO: u64 = 0x9e37_79b9_7f4a_7c15;

impl Dice {
    // The numbers of a seed.
    pub fn new(seed: u64) -> Dice {
        Dice {
            state: if seed == 0 { FOR_ZERO } else { seed },
        }
    }

    // The next number, 0 to 255.
    fn roll(&mut self) -> u8 {
        let mut x = self.state;
        x ^= x >> 12;
        x ^= x << 25;
        x ^= x >> 27;
        self.state = x;
        (x.wrapping_mul(0x2545_f491_4f6c_dd1d) >> 56) as u8
    }

    // True so many times out of 256.
    pub fn lucky(&mut self, out_of_256: u8) -> bool {
        self.roll() < out_of_256
    }

    // One of the numbers below a count, 0 for a count of 0.
    pub fn below(&mut self, count: u8) -> u8 {
        self.roll().checked_rem(count).unwrap_or(0)
    }
}

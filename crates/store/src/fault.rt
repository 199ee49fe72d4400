ghost use Rattle.std.specs.Prelude.{◌≡◌};
ghost use Rattle.store.specs.Faults.{store_number, image_number};

// Why a store refuses an access.
#[derive(Clone, Copy, PartialEq, Eq, Debug)]
pub enum StoreFault {
    // the position is at or past the size
    Position = 24,
}

impl StoreFault {
    // The number of the refusal. A method and no `From`: its name says which number, and callers use it.
    pub fn number(self) -> u8
        ensures { result ≡ store_number self }
    {
        self as u8
    }
}

// Why bytes are not taken up as an image.
#[derive(Clone, Copy, PartialEq, Eq, Debug)]
pub enum ImageFault {
    // fewer than five bytes
    Short = 21,
    // another version than 1
    Version = 22,
    // not as many bytes as the count asks
    Length = 23,
}

impl ImageFault {
    // The number of the refusal, by a method as above.
    pub fn number(self) -> u8
        ensures { result ≡ image_number self }
    {
        // the discriminants are the numbers
        self as u8
    }
}

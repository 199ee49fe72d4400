ghost use Rattle.std.specs.Prelude.{◌≡◌, ◌+◌, ◌-◌, ◌*◌, ◌/◌, ◌<◌, ◌≤◌, length, Some, None, MatchOption, MatchResult};
ghost use Rattle.store.specs.Faults.{image_number, numbered};
ghost use Rattle.store.specs.Image.{image_words, image_refusal, with_word, word_at};
ghost use Rattle.store.specs.Words.{read_of};

use crate::fault::{ImageFault, StoreFault};
use crate::words::Store;

// An image of bytes: the version 1, the number of words in four bytes, and the words of eight bytes, all big-endian.
#[derive(Drop)]
pub struct Image<'a> {
    bytes: &'a mut [u8],
}

impl<'a> Image<'a> {
    // Takes up an image, or says what is wrong with it.
    pub fn open(bytes: &'a mut [u8]) -> Result<Image<'a>, ImageFault>
        ensures { MatchResult result (λ i. (image_refusal bytes.old ≡ None) × (i.bytes.now ≡ bytes.old)) (λ e. image_refusal bytes.old ≡ Some (image_number e)) }
    {
        let [version, a, b, c, d, words @ ..] = &*bytes else {
            return Err(ImageFault::Short);
        };
        if *version != 1 {
            return Err(ImageFault::Version);
        }
        let count = u32::from_be_bytes([*a, *b, *c, *d]) as usize;
        if words.len() != 8 * count {
            return Err(ImageFault::Length);
        }
        Ok(Image { bytes })
    }

    // The word at a position.
    #[tactic(auto, using(crate::proofs::ImageLaws::image_steps))]
    fn word(&self, pos: usize) -> Result<u64, StoreFault>
        ensures { numbered result ≡ read_of (image_words self.now.bytes.now) pos }
    {
        let at = place(self.bytes.len(), pos).ok_or(StoreFault::Position)?;
        Ok(get_word(self.bytes, at))
    }
}

// The word of the eight bytes from `at`.
fn get_word(bytes: &[u8], at: usize) -> u64
    requires { at + 8 ≤ length bytes.now }
    ensures { result ≡ word_at bytes.now at }
{
    u64::from_be_bytes(bytes[at..at + 8].try_into().unwrap())
}

// Puts a word into the eight bytes from `at`.
#[tactic(auto, unfolding(crate::specs::Image::with_word))]
fn put_word(bytes: &mut [u8], at: usize, word: u64)
    requires { at + 8 ≤ length bytes.old }
    ensures { bytes.new ≡ with_word bytes.old at word }
{
    bytes[at..at + 8].copy_from_slice(&word.to_be_bytes());
}

// The first byte of the word at a position, if there is such a word.
fn place(len: usize, pos: usize) -> Option<usize>
    ensures { MatchOption result ((len - 5) / 8 ≤ pos) (λ at. (at ≡ 5 + 8 * pos) × (pos < (len - 5) / 8)) }
{
    (pos < len.saturating_sub(5) / 8).then(|| 5 + 8 * pos)
}

#[tactic(auto, using(crate::proofs::ImageLaws::image_steps))]
impl Store for Image<'_> {
    ghost words = { λ m. image_words m.bytes.now };

    fn size(&self) -> usize {
        self.bytes.len().saturating_sub(5) / 8
    }

    fn read(&mut self, pos: usize) -> Result<u64, StoreFault> {
        self.word(pos)
    }

    fn write(&mut self, pos: usize, word: u64) -> Result<(), StoreFault> {
        let at = place(self.bytes.len(), pos).ok_or(StoreFault::Position)?;
        put_word(self.bytes, at, word);
        Ok(())
    }
}

ghost use Rattle.std.specs.Prelude.{◌≡◌, ℕ, List, length};
ghost use Rattle.store.specs.Faults.{numbered};
ghost use Rattle.store.specs.Words.{read_of, write_of, swap_of, written, swapped};

use crate::fault::StoreFault;

// Words of 64 bits at the positions below a fixed size. `words` is the meaning of a store: the list of its words.
pub trait Store {
    ghost words: { Self → List ℕ };

    // How many words there are.
    fn size(&self) -> usize
        ensures { result ≡ length (words self.now) };

    // The word at a position. It takes `&mut self` so that a store may count what is read; the words stay.
    fn read(&mut self, pos: usize) -> Result<u64, StoreFault>
        ensures answer { numbered result ≡ read_of (words self.old) pos }
        ensures after { words self.new ≡ words self.old };

    // Replaces the word at a position.
    fn write(&mut self, pos: usize, word: u64) -> Result<(), StoreFault>
        ensures answer { numbered result ≡ write_of (words self.old) pos }
        ensures after { words self.new ≡ written (words self.old) pos word };

    // Replaces the word at a position by `new` if it is `old`, and says whether it was.
    fn swap(&mut self, pos: usize, old: u64, new: u64) -> Result<bool, StoreFault>
        ensures answer { numbered result ≡ swap_of (words self.old) pos old }
        ensures after { words self.new ≡ swapped (words self.old) pos old new }
    {
        let found = self.read(pos)? == old;
        if found {
            self.write(pos, new)?;
        }
        Ok(found)
    }
}

ghost use Rattle.std.specs.Prelude.{◌≡◌};
ghost use Rattle.store.specs.Faults.{numbered};
ghost use Rattle.store.specs.Words.{read_of};

use crate::fault::StoreFault;
use crate::words::Store;

// Words in memory that the caller lends.
#[derive(Drop)]
pub struct Memory<'a> {
    cells: &'a mut [u64],
}

impl<'a> Memory<'a> {
    // The store whose words are those of the slice.
    pub fn new(cells: &'a mut [u64]) -> Self
        ensures { result.cells.now ≡ cells.old }
    {
        Memory { cells }
    }

    // The word at a position. Apart from `read`, since a proof of `get` behind a `&mut self` loses that the words stay.
    fn word(&self, pos: usize) -> Result<u64, StoreFault>
        ensures { numbered result ≡ read_of self.now.cells.now pos }
    {
        self.cells.get(pos).copied().ok_or(StoreFault::Position)
    }
}

impl Store for Memory<'_> {
    ghost words = { λ m. m.cells.now };

    fn size(&self) -> usize {
        self.cells.len()
    }

    fn read(&mut self, pos: usize) -> Result<u64, StoreFault> {
        self.word(pos)
    }

    fn write(&mut self, pos: usize, word: u64) -> Result<(), StoreFault> {
        // by the index, since `get_mut` says nothing of what the slice holds afterwards
        if pos >= self.cells.len() {
            return Err(StoreFault::Position);
        }
        self.cells[pos] = word;
        Ok(())
    }
}

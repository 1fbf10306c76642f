// A shelf that tells nothing of its contents.
ghost use Rattle.vx_untold.specs.Untold.{untold, untold_Lawful};

use vx_disk::{Shelf, ShelfError};

/// A shelf as one that tells nothing.
#[derive(Drop)]
pub struct Untold<S: Shelf> {
    pub shelf: S,
}

impl<S: Shelf> Shelf for Untold<S> {
    ghost meaning = { λ u. untold (S.meaning u.shelf) };

    fn units(&self) -> u32 {
        self.shelf.units()
    }

    fn size(&self, unit: u32) -> u64 {
        self.shelf.size(unit)
    }

    fn read(&mut self, unit: u32, block: u64, into: &mut [u8]) -> Result<(), ShelfError> {
        self.shelf.read(unit, block, into)
    }

    fn write(&mut self, unit: u32, block: u64, bytes: &[u8]) -> Result<(), ShelfError> {
        self.shelf.write(unit, block, bytes)
    }

    fn flush(&mut self, unit: u32) -> Result<(), ShelfError> {
        self.shelf.flush(unit)
    }

    fn faults(&self, unit: u32) -> u64 {
        self.shelf.faults(unit)
    }

    fn is_down(&self) -> bool {
        self.shelf.is_down()
    }

    ghost lawful = { λ u. untold_Lawful (S.meaning u.shelf) (S.lawful u.shelf) };
}

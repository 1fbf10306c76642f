// A shelf around any shelf, whose crashes leave each block by itself.
ghost use Rattle.std.specs.Prelude.{◌≡◌};
ghost use Rattle.vx_blockwise.specs.Pasts.{shelves_of};

use crate::past::{Past, none, note};
use std::snapshot::Snapshot;
use vx_disk::{Shelf, ShelfError};

/// A shelf, and what it was before each call since the first.
#[derive(Drop)]
pub struct Blockwise<S: Shelf> {
    pub shelf: S,
    pub past: Snapshot<Option<Past<S>>>,
}

impl<S: Shelf> Blockwise<S> {
    /// Begins with the shelf as it is. It makes no device call.
    pub fn over(shelf: S) -> Blockwise<S>
        ensures { result.shelf ≡ shelf }
    {
        Blockwise {
            shelf,
            past: none(),
        }
    }

    /// Hands the shelf out. It makes no device call.
    pub fn into_shelf(self) -> S
        ensures { result ≡ self.shelf }
    {
        self.shelf
    }
}

impl<S: Shelf> Shelf for Blockwise<S> {
    ghost use Rattle.vx_blockwise.specs.Blocks.{blockwise_lawful, blockwise_since};

    ghost meaning = { λ b. blockwise_since (λ s. S.meaning s) (shelves_of b.past.value) (S.meaning b.shelf) };

    fn units(&self) -> u32 {
        self.shelf.units()
    }

    fn size(&self, unit: u32) -> u64 {
        self.shelf.size(unit)
    }

    fn read(&mut self, unit: u32, block: u64, into: &mut [u8]) -> Result<(), ShelfError> {
        note(&mut self.past, &self.shelf);
        self.shelf.read(unit, block, into)
    }

    fn write(&mut self, unit: u32, block: u64, bytes: &[u8]) -> Result<(), ShelfError> {
        note(&mut self.past, &self.shelf);
        self.shelf.write(unit, block, bytes)
    }

    fn flush(&mut self, unit: u32) -> Result<(), ShelfError> {
        note(&mut self.past, &self.shelf);
        self.shelf.flush(unit)
    }

    fn faults(&self, unit: u32) -> u64 {
        self.shelf.faults(unit)
    }

    fn is_down(&self) -> bool {
        self.shelf.is_down()
    }

    ghost lawful = { λ b. blockwise_lawful (λ s. S.meaning s) (shelves_of b.past.value) (S.meaning b.shelf) (S.lawful b.shelf) };
}

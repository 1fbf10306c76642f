// A shelf with an account of its calls.
ghost use Rattle.std.specs.Prelude.{◌≡◌};
ghost use Rattle.vx_watched.specs.Since.{CalledSince};

use crate::begun::Begun;
use std::marker::PhantomData;
use vx_disk::{Shelf, ShelfError};

/// A shelf, and what its calls made of the disks below since the first of them.
#[derive(Drop)]
pub struct Watched<S: Shelf, B: Begun> {
    pub shelf: S,
    pub of: PhantomData<B>,
    pub ghost since: { CalledSince B.first (S.meaning shelf) },
}

impl<S: Shelf, B: Begun> Watched<S, B> {
    /// Begins the account, or goes on with it. It makes no device call.
    pub fn over(shelf: S) -> Watched<S, B>
        requires since { CalledSince B.first (S.meaning shelf) }
        ensures { result.shelf ≡ shelf }
    {
        Watched {
            shelf,
            of: PhantomData,
        }
    }

    /// Hands the shelf out, with the account. It makes no device call.
    pub fn into_shelf(self) -> S
        ensures shelf { result ≡ self.shelf }
        ensures since { CalledSince B.first (S.meaning result) }
    {
        self.shelf
    }
}

impl<S: Shelf, B: Begun> Shelf for Watched<S, B> {
    ghost meaning = { λ w. S.meaning w.shelf };

    fn units(&self) -> u32 {
        self.shelf.units()
    }

    fn size(&self, unit: u32) -> u64 {
        self.shelf.size(unit)
    }

    fn read(&mut self, unit: u32, block: u64, into: &mut [u8]) -> Result<(), ShelfError> {
        self.shelf.read(unit, block, into)
    }

    fn write(&mut self, unit: u32, block: u64, bytes: &[u8]) -> Result<(), ShelfError> {
        self.shelf.write(unit, block, bytes)
    }

    fn flush(&mut self, unit: u32) -> Result<(), ShelfError> {
        self.shelf.flush(unit)
    }

    fn faults(&self, unit: u32) -> u64 {
        self.shelf.faults(unit)
    }

    fn is_down(&self) -> bool {
        self.shelf.is_down()
    }

    ghost lawful = { λ w. S.lawful w.shelf };
}

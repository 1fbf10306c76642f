// A rack with an account of whether it tells of its contents.
ghost use Rattle.std.specs.Prelude.{◌≡◌};
ghost use Rattle.vx_watched.specs.Traces.{TellsLess};

use crate::begun::Begun;
use std::alloc::Global;
use std::marker::PhantomData;
use vx_disk::{Rack, Shelf, ShelfError};
use vx_model::Stop;

/// A rack that tells of its contents only where it did at the start.
#[derive(Drop)]
pub struct Traced<R: Rack, B: Begun> {
    pub rack: R,
    pub of: PhantomData<B>,
    pub ghost told: { TellsLess B.first (R.meaning rack) },
}

impl<R: Rack, B: Begun> Traced<R, B> {
    /// Begins the account, or goes on with it. It makes no device call.
    pub fn over(rack: R) -> Traced<R, B>
        requires told { TellsLess B.first (R.meaning rack) }
        ensures { result.rack ≡ rack }
    {
        Traced {
            rack,
            of: PhantomData,
        }
    }

    /// Hands the rack out, with the account. It makes no device call.
    pub fn into_rack(self) -> R
        ensures rack { result ≡ self.rack }
        ensures told { TellsLess B.first (R.meaning result) }
    {
        self.rack
    }
}

impl<R: Rack, B: Begun> Shelf for Traced<R, B> {
    ghost meaning = { λ t. R.meaning t.rack };

    fn units(&self) -> u32 {
        self.rack.units()
    }

    fn size(&self, unit: u32) -> u64 {
        self.rack.size(unit)
    }

    fn read(&mut self, unit: u32, block: u64, into: &mut [u8]) -> Result<(), ShelfError> {
        self.rack.read(unit, block, into)
    }

    fn write(&mut self, unit: u32, block: u64, bytes: &[u8]) -> Result<(), ShelfError> {
        self.rack.write(unit, block, bytes)
    }

    fn flush(&mut self, unit: u32) -> Result<(), ShelfError> {
        self.rack.flush(unit)
    }

    fn faults(&self, unit: u32) -> u64 {
        self.rack.faults(unit)
    }

    fn is_down(&self) -> bool {
        self.rack.is_down()
    }

    ghost lawful = { λ t. R.lawful t.rack };
}

impl<R: Rack, B: Begun> Rack for Traced<R, B> {
    fn fit(
        &mut self,
        alloc: Global,
        dir: Option<&str>,
        site: u32,
        disks: u32,
        blocks: u64,
    ) -> Result<(), Stop> {
        self.rack.fit(alloc, dir, site, disks, blocks)
    }

    fn crash(&mut self, pick: u64) {
        self.rack.crash(pick)
    }

    fn fuse(&mut self, calls: u64, pick: u64) {
        self.rack.fuse(calls, pick)
    }

    fn fail(&mut self, disk: u32, on: bool) {
        self.rack.fail(disk, on)
    }

    fn revive(&mut self) {
        self.rack.revive()
    }

    ghost rack = { λ t. R.rack t.rack };
}

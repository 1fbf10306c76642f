// A rack of which the contents are told or not.
ghost use Rattle.std.specs.Prelude.{◌≡◌};
ghost use Rattle.vx_untold.specs.Shades.{rack_of, shade_lawful, shade_meaning, shade_rack};

use std::alloc::Global;
use vx_disk::{Rack, Shelf, ShelfError};
use vx_model::Stop;

/// A rack as it is, or as one that tells nothing of its contents.
#[derive(Drop)]
pub enum Shade<R: Rack> {
    Bright(R),
    Dark(R),
}

impl<R: Rack> Shade<R> {
    /// The same rack, as one that tells nothing. It makes no device call.
    pub fn darkened(self) -> Shade<R>
        ensures { result ≡ Shade.Dark (rack_of self) }
    {
        match self {
            Shade::Bright(rack) | Shade::Dark(rack) => Shade::Dark(rack),
        }
    }
}

impl<R: Rack> Shelf for Shade<R> {
    ghost meaning = { λ s. shade_meaning (λ r. R.meaning r) s };

    fn units(&self) -> u32 {
        match self {
            Shade::Bright(rack) => rack.units(),
            Shade::Dark(rack) => rack.units(),
        }
    }

    fn size(&self, unit: u32) -> u64 {
        match self {
            Shade::Bright(rack) => rack.size(unit),
            Shade::Dark(rack) => rack.size(unit),
        }
    }

    fn read(&mut self, unit: u32, block: u64, into: &mut [u8]) -> Result<(), ShelfError> {
        match self {
            Shade::Bright(rack) => rack.read(unit, block, into),
            Shade::Dark(rack) => rack.read(unit, block, into),
        }
    }

    fn write(&mut self, unit: u32, block: u64, bytes: &[u8]) -> Result<(), ShelfError> {
        match self {
            Shade::Bright(rack) => rack.write(unit, block, bytes),
            Shade::Dark(rack) => rack.write(unit, block, bytes),
        }
    }

    fn flush(&mut self, unit: u32) -> Result<(), ShelfError> {
        match self {
            Shade::Bright(rack) => rack.flush(unit),
            Shade::Dark(rack) => rack.flush(unit),
        }
    }

    fn faults(&self, unit: u32) -> u64 {
        match self {
            Shade::Bright(rack) => rack.faults(unit),
            Shade::Dark(rack) => rack.faults(unit),
        }
    }

    fn is_down(&self) -> bool {
        match self {
            Shade::Bright(rack) => rack.is_down(),
            Shade::Dark(rack) => rack.is_down(),
        }
    }

    ghost lawful = { λ s. shade_lawful (λ r. R.meaning r) (λ rack. R.lawful rack) s };
}

impl<R: Rack> Rack for Shade<R> {
    fn fit(
        &mut self,
        alloc: Global,
        dir: Option<&str>,
        site: u32,
        disks: u32,
        blocks: u64,
    ) -> Result<(), Stop> {
        match self {
            Shade::Bright(rack) => rack.fit(alloc, dir, site, disks, blocks),
            Shade::Dark(rack) => rack.fit(alloc, dir, site, disks, blocks),
        }
    }

    fn crash(&mut self, pick: u64) {
        match self {
            Shade::Bright(rack) => rack.crash(pick),
            Shade::Dark(rack) => rack.crash(pick),
        }
    }

    fn fuse(&mut self, calls: u64, pick: u64) {
        match self {
            Shade::Bright(rack) => rack.fuse(calls, pick),
            Shade::Dark(rack) => rack.fuse(calls, pick),
        }
    }

    fn fail(&mut self, disk: u32, on: bool) {
        match self {
            Shade::Bright(rack) => rack.fail(disk, on),
            Shade::Dark(rack) => rack.fail(disk, on),
        }
    }

    fn revive(&mut self) {
        match self {
            Shade::Bright(rack) => rack.revive(),
            Shade::Dark(rack) => rack.revive(),
        }
    }

    ghost rack = { λ s. shade_rack (λ r. R.meaning r) (λ rack. R.rack rack) s };
}

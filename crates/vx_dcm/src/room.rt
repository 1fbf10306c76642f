// Memory for change maps, taken before they are read.
ghost use Rattle.std.specs.Prelude.{◌≡◌, ◌*◌, ◌≤◌, IfOk, length};
ghost use Rattle.vx_dcm.specs.Places.{MapsFit};
ghost use Rattle.vx_disk.specs.Maps.{maps_of};
ghost use Rattle.vx_model.specs.declared.limits.TheConstants.{BLOCK, LINK_PLACES, MOST_MAP_BLOCKS};

use crate::sizes::{maps_to, sizes_of};
use std::alloc::Global;
use std::marker::Model;
use vx_disk::Shelf;
use vx_model::limits::{BLOCK, LINK_PLACES, MOST_MAP_BLOCKS};
use vx_model::{OutOfMemory, Units};

/// Memory for the change maps of a group.
#[derive(Drop)]
pub struct DcmRoom {
    bytes: Vec<u8>,
}

impl Model for DcmRoom {
    ghost use Rattle.std.specs.Prelude.{◌/◌, length};
    ghost use Rattle.vx_dcm.specs.Places.{IsMapRoom, MapRoom};

    ghost Value = { MapRoom };

    ghost view = { λ r. record { blocks = length r.bytes.items / 512 } };

    ghost invariant = { λ r. IsMapRoom r.bytes.items };
}

impl DcmRoom {
    /// For maps of so many blocks, at most 65,536.
    pub fn new(alloc: Global, blocks: u64) -> Result<DcmRoom, OutOfMemory>
        ensures { IfOk result (λ room. room.blocks ≡ blocks) }
    {
        if blocks > MOST_MAP_BLOCKS {
            return Err(OutOfMemory);
        }
        let bytes = Vec::from_elem(alloc, 0u8, BLOCK * blocks as usize)?;
        Ok(DcmRoom { bytes })
    }

    /// For how many blocks it is.
    pub fn blocks(&self) -> u64
        ensures { result ≡ self.now.blocks }
    {
        (self.bytes.len() / BLOCK) as u64
    }

    /// The memory of so many of the blocks.
    pub(crate) fn cut_to(self, blocks: u64) -> Vec<u8>
        requires { blocks ≤ self.blocks }
        ensures long { length result.items ≡ BLOCK * blocks }
        ensures few { blocks ≤ MOST_MAP_BLOCKS }
    {
        let DcmRoom { bytes } = self;
        let mut bytes = bytes;
        bytes.truncate(BLOCK * blocks as usize);
        bytes
    }
}

/// How many blocks of the map unit the change maps of a group of these units take.
pub fn room_blocks<S: Shelf>(units: &Units, shelf: &S) -> u64
    requires { MapsFit units.now (S.meaning shelf.now) }
    ensures { result ≡ LINK_PLACES * maps_of units.now.vols (S.meaning shelf.now) }
{
    let sizes = sizes_of(shelf, units.vols.as_slice());
    LINK_PLACES as u64 * maps_to(&sizes, sizes.len())
}

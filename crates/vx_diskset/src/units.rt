// The units of a raw set.
ghost use Rattle.std.specs.Prelude.{◌≡◌, ◌≤◌, IsTrue};
ghost use Rattle.vx_diskset.specs.Layouts.{CanBeRaw, raw_units as units_of};
ghost use Rattle.vx_model.specs.Sizes.{is_raw_shape as is_raw_shape_is};

use vx_model::limits::{LEAST_BLOCKS, LEAST_RAW_DISKS, MOST_DISKS};
use vx_model::{Units, VolumeUnits, is_raw_shape};

/// Those of 3 to 8 disks: the log on disk 0, the maps on the last disk, and a volume on each disk between.
pub fn raw_units(disks: u32) -> Units
    requires some { LEAST_RAW_DISKS ≤ disks }
    requires few { disks ≤ MOST_DISKS }
    ensures { result ≡ units_of disks }
{
    let mut vols = VolumeUnits::new();
    for k in 1..disks - 1 {
        vols.push(k);
    }
    Units {
        srl: 0,
        maps: disks - 1,
        vols,
    }
}

/// Whether the disks of a site, so many of so many blocks, can be a raw set.
pub fn can_be_raw(disks: u32, blocks: u64) -> bool
    ensures is { IsTrue result → CanBeRaw disks blocks }
    ensures few { IsTrue result → disks ≤ MOST_DISKS }
    ensures large { IsTrue result → LEAST_BLOCKS ≤ blocks }
    ensures exact { disks ≤ MOST_DISKS → result ≡ is_raw_shape_is disks blocks }
{
    disks <= MOST_DISKS && is_raw_shape(disks, blocks)
}

// Whether the log of a volume can be read.
ghost use Rattle.std.specs.Prelude.{◌≡◌, true, slice_get};
ghost use Rattle.vx_config.specs.Checks.{blocks_or};
ghost use Rattle.vx_maplog.specs.Logs.{DisksReach, HasLog};

use crate::entry::log_of;
use vx_config::{Config, DiskEntry, VolumeLog, blocks_of, check};
use vx_disk::Shelf;

/// Whether the configuration is sound, and its volume has blocks and this log.
pub fn has_log(config: &Config, volume: u32, log: VolumeLog) -> bool
    ensures has { result ≡ true → HasLog config.now volume log }
    ensures only { HasLog config.now volume log → result ≡ true }
{
    match log_of(config, volume, log) {
        Some(_entry) => check(config) && blocks_of(config, volume) > 0,
        None => false,
    }
}

// The blocks of a disk; none where there is no such disk.
fn disk_blocks(disks: &[DiskEntry], disk: usize) -> u64
    ensures { result ≡ blocks_or (slice_get disks.now disk) }
{
    match disks.get(disk) {
        Some(entry) => entry.blocks,
        None => 0,
    }
}

/// Whether the disks of a configuration are units of a shelf, each with at least its blocks.
pub fn disks_fit<S: Shelf>(disks: &[DiskEntry], shelf: &S) -> bool
    ensures fit { result ≡ true → DisksReach disks.now (S.meaning shelf.now) }
    ensures only { DisksReach disks.now (S.meaning shelf.now) → result ≡ true }
{
    for k in 0..disks.len() {
        if k >= shelf.units() as usize {
            return false;
        }
        if shelf.size(k as u32) < disk_blocks(disks, k) {
            return false;
        }
    }
    true
}

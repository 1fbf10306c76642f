// Disks that are held as good again, and whether all are.
ghost use Rattle.std.specs.Prelude.{◌≡◌, ◌⊎◌, ◌<◌, length, true, false, IsTrue, IsFalse};
ghost use Rattle.vx_group.specs.Regains.{regained};
ghost use Rattle.vx_kept.specs.Trusts.{AllGood, HasFailed};

use vx_config::{Config, DiskEntry, Disks};

/// Holds a disk as good.
pub fn hold_good(config: &mut Config, disk: u32)
    requires inside { disk < length config.old.disks }
    ensures { config.new ≡ regained config.old disk }
{
    let blocks = config.disks.as_slice()[disk as usize].blocks;
    config.disks.set(
        disk as usize,
        DiskEntry {
            blocks,
            failed: false,
        },
    );
}

/// Whether behind a commit the newest configuration is committed: where it was so before, or no disk is held as failed.
pub fn is_committed(committed: bool, disks: &Disks) -> bool
    ensures some { IsTrue result → (committed ≡ true) ⊎ AllGood disks.now }
    ensures none { IsFalse result → (committed ≡ false) × (HasFailed disks.now) }
{
    if committed {
        return true;
    }
    let disks = disks.as_slice();
    for k in 0..disks.len() {
        if disks[k].failed {
            return false;
        }
    }
    true
}

// What a failed disk changes in a configuration.
ghost use Rattle.std.specs.Prelude.{◌≡◌, ◌+◌, ◌<◌, ◌≤◌, ℕ, false, true, length, IsTrue, IsFalse};
ghost use Rattle.vx_copies.specs.Bodies.{failed_in, is_wanted};
ghost use Rattle.vx_copies.specs.Marks.{HasGood, NoneGood, good_count, marked};

use vx_config::{Config, DiskEntry, Disks};
use vx_copyio::is_member;

/// Holds a disk as failed. What is sound stays so.
pub fn hold_failed(config: &mut Config, disk: u32)
    requires inside { disk < length config.old.disks }
    ensures marked { config.new ≡ marked config.old disk }
    ensures wanted { (units : ℕ) (size : ℕ → ℕ) → is_wanted units size config.old ≡ true → is_wanted units size config.new ≡ true }
    ensures falls { failed_in config.old disk ≡ false → good_count config.new.disks + 1 ≡ good_count config.old.disks }
{
    let blocks = config.disks.as_slice()[disk as usize].blocks;
    config.disks.set(
        disk as usize,
        DiskEntry {
            blocks,
            failed: true,
        },
    );
}

/// Whether a disk of a set is held as good.
pub fn has_good(disks: &Disks, good: u8) -> bool
    ensures some { IsTrue result → HasGood disks.now good }
    ensures none { IsFalse result → NoneGood disks.now (length disks.now) good }
{
    let disks = disks.as_slice();
    for k in 0..disks.len() {
        if !disks[k].failed && is_member(good, k as u32) {
            return true;
        }
    }
    false
}

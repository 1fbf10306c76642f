//! What is promised of the sets of disks.
ghost use Rattle.std.specs.Prelude.{◌≡◌, ◌<◌, List, ℕ, length, not};
ghost use Rattle.vx_config.specs.declared.entry.DiskEntry.{DiskEntry as Entry};
ghost use Rattle.vx_copies.specs.Answers.{good_set};
ghost use Rattle.vx_copies.specs.Marks.{failed_at};
ghost use Rattle.vx_disk.specs.Blocks.{bit_at};

/// Bit D of the set of the good disks says that disk D is not held as failed.
pub fn good_bits()
    ensures { (disks : List Entry) (u : ℕ) → u < length disks → bit_at (good_set disks) u ≡ not (failed_at disks u) }
{}

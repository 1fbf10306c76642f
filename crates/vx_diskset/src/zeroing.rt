// Zeros on all blocks of the disks of a site: whatever was begun on them is gone.
ghost use Rattle.std.specs.Prelude.{◌≡◌, ◌+◌, ◌<◌, ◌≤◌, IfErr, OnOk};
ghost use Rattle.vx_disk.specs.Causes.{Cause, DeviceCause, refusal_of};
ghost use Rattle.vx_disk.specs.Shelf.{Goes};
ghost use Rattle.vx_diskset.specs.Zeroing.{FailsAlike, GivesZeros, IsZeroOf, LeavesZeros};
ghost use Rattle.vx_diskset.specs.Zeros.{OnlyZeros};

use vx_disk::{Rack, ShelfError};
use vx_model::limits::{BLOCK, MOST_CALL_BLOCKS, MOST_CALL_BYTES};

// Writes zeros to so many blocks of a disk.
fn zero_run<R: Rack>(rack: &mut R, disk: u32, block: u64, count: u64) -> Result<(), ShelfError>
    requires there { disk < (R.meaning rack.old).units }
    requires some { 0 < count }
    requires few { count ≤ MOST_CALL_BLOCKS }
    requires within { block + count ≤ (R.meaning rack.old).size disk }
    ensures goes { Goes (IsZeroOf disk) (R.meaning rack.old) (R.meaning rack.new) }
    ensures ok { OnOk result (GivesZeros disk block (R.meaning rack.old) → GivesZeros disk (block + count) (R.meaning rack.new)) }
    ensures cause { Cause (R.meaning rack.old) (R.meaning rack.new) disk result }
    ensures failing { FailsAlike (R.meaning rack.old).disks (R.meaning rack.new).disks }
    ensures within { block + count ≤ (R.meaning rack.old).size disk }
{
    let zeros = [0; MOST_CALL_BYTES];
    rack.write(disk, block, &zeros[..BLOCK * count as usize])
}

// Writes zeros to each block of a disk, and makes them durable.
fn zero_disk<R: Rack>(rack: &mut R, disk: u32) -> Result<(), ShelfError>
    requires there { disk < (R.meaning rack.old).units }
    ensures goes { Goes (IsZeroOf disk) (R.meaning rack.old) (R.meaning rack.new) }
    ensures ok { OnOk result (LeavesZeros disk (R.meaning rack.old) → LeavesZeros (disk + 1) (R.meaning rack.new)) }
    ensures cause { IfErr result (λ e. DeviceCause (R.meaning rack.old) (R.meaning rack.new) (refusal_of e)) }
    ensures failing { FailsAlike (R.meaning rack.old).disks (R.meaning rack.new).disks }
{
    let blocks = rack.size(disk);
    let mut done = 0;
    while done < blocks {
        let count = (blocks - done).min(MOST_CALL_BLOCKS);
        match zero_run(rack, disk, done, count) {
            Ok(()) => done += count,
            Err(error) => return Err(error),
        }
    }
    rack.flush(disk)
}

/// Writes zeros to each block of each disk, and makes them durable. A disk that fails ends it.
pub(crate) fn zero_disks<R: Rack>(rack: &mut R) -> Result<(), ShelfError>
    ensures goes { Goes OnlyZeros (R.meaning rack.old) (R.meaning rack.new) }
    ensures ok { OnOk result (LeavesZeros (R.meaning rack.old).units (R.meaning rack.new)) }
    ensures cause { IfErr result (λ e. DeviceCause (R.meaning rack.old) (R.meaning rack.new) (refusal_of e)) }
    ensures failing { FailsAlike (R.meaning rack.old).disks (R.meaning rack.new).disks }
{
    let disks = rack.units();
    for disk in 0..disks {
        match zero_disk(rack, disk) {
            Ok(()) => {}
            Err(error) => return Err(error),
        }
    }
    Ok(())
}

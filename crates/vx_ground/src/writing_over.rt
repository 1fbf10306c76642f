// A volume of which each block is written as it reads.
ghost use Rattle.std.specs.Prelude.{◌≡◌, ◌+◌, ◌<◌, ◌≤◌, IfErr, OnOk};
ghost use Rattle.vx_disk.specs.Causes.{Cause};
ghost use Rattle.vx_disk.specs.Shelf.{Goes};
ghost use Rattle.vx_ground.specs.Rewrites.{OneRests, Rewrote, WasLeft};

use vx_disk::{Shelf, ShelfError};
use vx_model::limits::{BLOCK, MOST_CALL_BLOCKS};

// Writes a run of blocks of a unit as it reads.
fn write_run<S: Shelf>(shelf: &mut S, unit: u32, block: u64, count: u64) -> Result<(), ShelfError>
    requires some { 0 < count }
    requires few { count ≤ MOST_CALL_BLOCKS }
    requires there { unit < (S.meaning shelf.old).units }
    requires within { block + count ≤ (S.meaning shelf.old).size unit }
    ensures goes { Goes (WasLeft unit (S.meaning shelf.old)) (S.meaning shelf.old) (S.meaning shelf.new) }
    ensures ok { OnOk result (Rewrote unit block count (S.meaning shelf.old) (S.meaning shelf.new)) }
    ensures cause { Cause (S.meaning shelf.old) (S.meaning shelf.new) unit result }
{
    let mut room = [0; MOST_CALL_BLOCKS as usize * BLOCK];
    let bytes = &mut room[..count as usize * BLOCK];
    shelf.read(unit, block, bytes)?;
    shelf.write(unit, block, bytes)
}

/// Writes each block of a unit as it reads, and makes all of them durable: a crash then leaves one value of each, which it might have left before.
///
/// A fault names the disk of the last call, and where the shelf is down, it says so.
pub fn write_over<S: Shelf>(shelf: &mut S, unit: u32) -> Result<(), ShelfError>
    requires there { unit < (S.meaning shelf.old).units }
    ensures goes { Goes (WasLeft unit (S.meaning shelf.old)) (S.meaning shelf.old) (S.meaning shelf.new) }
    ensures one { OnOk result (OneRests unit (S.meaning shelf.new)) }
    ensures cause { Cause (S.meaning shelf.old) (S.meaning shelf.new) unit result }
{
    let blocks = shelf.size(unit);
    let mut done = 0;
    while done < blocks {
        let count = (blocks - done).min(MOST_CALL_BLOCKS as u64);
        match write_run(shelf, unit, done, count) {
            Ok(()) => done += count,
            Err(error) => return Err(error),
        }
    }
    shelf.flush(unit)
}

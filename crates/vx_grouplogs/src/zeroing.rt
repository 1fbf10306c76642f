// Zeros in a run of blocks of a unit, which become durable.
ghost use Rattle.std.specs.Prelude.{◌≡◌, ◌+◌, ◌<◌, ◌≤◌, IfErr, IsTrue, OnOk};
ghost use Rattle.vx_disk.specs.Shelf.{Goes};
ghost use Rattle.vx_grouplogs.specs.Zeroing.{AreZeros, ZerosIn};

use vx_disk::{Shelf, ShelfError};
use vx_model::limits::BLOCK;

/// Writes zeros to a run of blocks of a unit, and flushes it: a crash leaves zeros then.
pub fn zero_run<S: Shelf>(
    shelf: &mut S,
    unit: u32,
    first: u64,
    blocks: u64,
) -> Result<(), ShelfError>
    requires exists { unit < (S.meaning shelf.old).units }
    requires within { first + blocks ≤ (S.meaning shelf.old).size unit }
    ensures goes { Goes (ZerosIn unit first blocks) (S.meaning shelf.old) (S.meaning shelf.new) }
    ensures zeros { OnOk result (AreZeros unit first blocks (S.meaning shelf.new)) }
{
    let zeros = [0; BLOCK];
    for done in 0..blocks {
        match shelf.write(unit, first + done, &zeros) {
            Ok(()) => {}
            Err(error) => return Err(error),
        }
    }
    shelf.flush(unit)
}

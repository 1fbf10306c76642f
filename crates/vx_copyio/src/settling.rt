// Headers that a failed call may have left with two values.
ghost use Rattle.std.specs.Prelude.{◌≡◌, ◌+◌, ◌<◌, ◌≤◌, IsTrue, OnOk};
ghost use Rattle.vx_copyio.specs.Settling.{AsLeft, HeadersAsLeft, OneLeft, OneRead};
ghost use Rattle.vx_disk.specs.Causes.{Cause};
ghost use Rattle.vx_disk.specs.Shelf.{Goes};

use crate::{AREA_A, AREA_B};
use vx_disk::{Shelf, ShelfError};
use vx_model::limits::BLOCK;

// Writes a block back as it is read.
fn write_back<S: Shelf>(shelf: &mut S, disk: u32, block: u64) -> Result<(), ShelfError>
    requires there { disk < (S.meaning shelf.old).units }
    requires room { block < (S.meaning shelf.old).size disk }
    ensures goes { Goes (AsLeft disk block (S.meaning shelf.old)) (S.meaning shelf.old) (S.meaning shelf.new) }
    ensures one { OnOk result (OneRead disk block (S.meaning shelf.new)) }
    ensures cause { Cause (S.meaning shelf.old) (S.meaning shelf.new) disk result }
{
    let mut bytes = [0; BLOCK];
    shelf.read(disk, block, &mut bytes)?;
    shelf.write(disk, block, &bytes)
}

/// Writes the headers of both areas of a disk back as they are read, and makes them durable.
///
/// At each moment of it a crash leaves what it might have left before. After Ok it leaves one value in each header, so that the next
/// copy of the disk cannot be written over the one that counts. It takes no memory.
pub fn settle<S: Shelf>(shelf: &mut S, disk: u32) -> Result<(), ShelfError>
    requires there { disk < (S.meaning shelf.old).units }
    requires room { 257 ≤ (S.meaning shelf.old).size disk }
    ensures goes { Goes (HeadersAsLeft disk (S.meaning shelf.old)) (S.meaning shelf.old) (S.meaning shelf.new) }
    ensures one { OnOk result (OneLeft disk (S.meaning shelf.new)) }
    ensures cause { Cause (S.meaning shelf.old) (S.meaning shelf.new) disk result }
{
    write_back(shelf, disk, AREA_A)?;
    write_back(shelf, disk, AREA_B)?;
    shelf.flush(disk)
}

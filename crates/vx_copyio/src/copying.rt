// The writing of one copy.
ghost use Rattle.std.specs.Prelude.{◌≡◌, ◌+◌, ◌<◌, ◌≤◌, ◌%◌, length, take, OnOk, IfOk};
ghost use Rattle.vx_copyfmt.specs.Areas.{CanSpellArea, area_block};
ghost use Rattle.vx_copyfmt.specs.Commits.{IsHeaderBlock, target_of};
ghost use Rattle.vx_copyio.specs.Putting.{InImage, IsTarget, LeavesNew, LeavesOldOrNew};
ghost use Rattle.vx_disk.specs.Burns.{MakesCalls};
ghost use Rattle.vx_disk.specs.Causes.{Cause};
ghost use Rattle.vx_disk.specs.Moves.{Moves, Run};
ghost use Rattle.vx_disk.specs.Shelf.{Goes, KeepsAll, Nothing, Written};
ghost use Rattle.vx_wire.specs.Seals.{digest_of};

use vx_copyfmt::{AreaHeader, get_area, put_area};
use vx_disk::{Shelf, ShelfError, put};
use vx_model::limits::{BLOCK, MOST_CONFIG_BYTES};

/// The first block of the first area, which is its header.
pub const AREA_A: u64 = 1;

/// The first block of the second area.
pub const AREA_B: u64 = 129;

// The area that does not hold the greater header; the first one where there is no header.
fn target(first: Option<AreaHeader>, second: Option<AreaHeader>) -> u64
    ensures { result ≡ target_of first second }
{
    match (first, second) {
        (None, _) => AREA_A,
        (Some(_), None) => AREA_B,
        (Some(first), Some(second)) => {
            if first.serial < second.serial {
                AREA_A
            } else {
                AREA_B
            }
        }
    }
}

// Reads both headers of a disk, and finds the area for its next copy.
fn find_target<S: Shelf>(shelf: &mut S, disk: u32) -> Result<u64, ShelfError>
    requires there { disk < (S.meaning shelf.old).units }
    requires room { 257 ≤ (S.meaning shelf.old).size disk }
    ensures target { IfOk result (λ area. IsTarget disk area (S.meaning shelf.old)) }
    ensures header { IfOk result IsHeaderBlock }
    ensures goes { Goes Nothing (S.meaning shelf.old) (S.meaning shelf.new) }
    ensures cause { Cause (S.meaning shelf.old) (S.meaning shelf.new) disk result }
    ensures calls { OnOk result (MakesCalls 0 (S.meaning shelf.old) (S.meaning shelf.new)) }
{
    let mut first = [0; BLOCK];
    shelf.read(disk, AREA_A, &mut first)?;
    let mut second = [0; BLOCK];
    shelf.read(disk, AREA_B, &mut second)?;
    Ok(target(get_area(&first), get_area(&second)))
}

// Writes the header of an area, and makes it durable.
fn put_header<S: Shelf>(
    shelf: &mut S,
    disk: u32,
    area: u64,
    header: &AreaHeader,
) -> Result<(), ShelfError>
    requires there { disk < (S.meaning shelf.old).units }
    requires room { area < (S.meaning shelf.old).size disk }
    requires can { CanSpellArea header.now }
    ensures goes { Goes (Written disk area (area_block header.now)) (S.meaning shelf.old) (S.meaning shelf.new) }
    ensures kept { OnOk result (KeepsAll (S.meaning shelf.new) disk area (area_block header.now)) }
    ensures cause { Cause (S.meaning shelf.old) (S.meaning shelf.new) disk result }
    ensures calls { OnOk result (MakesCalls 2 (S.meaning shelf.old) (S.meaning shelf.new)) }
{
    let mut block = [0; BLOCK];
    put_area(header, &mut block);
    put(shelf, disk, area, &block)
}

/// Writes a copy to a disk: its body and then its header, each made durable, into the area that does not hold the greater
/// header. The body is filled up to whole blocks, of which there are at most 127. These are four device calls: a write and a flush of each.
///
/// At each moment of it a crash leaves the disk with the copy of before or with the new one; or with that of before torn, where its headers
/// had several values, so that a read could not tell which was the greater one.
pub fn put_copy<S: Shelf>(
    shelf: &mut S,
    disk: u32,
    header: &AreaHeader,
    body: &[u8],
) -> Result<(), ShelfError>
    requires there { disk < (S.meaning shelf.old).units }
    requires room { 257 ≤ (S.meaning shelf.old).size disk }
    requires can { CanSpellArea header.now }
    requires whole { length body.now % BLOCK ≡ 0 }
    requires few { length body.now ≤ MOST_CONFIG_BYTES }
    requires long { header.now.length ≤ length body.now }
    requires digest { header.now.digest ≡ digest_of (take header.now.length body.now) }
    ensures moves { Moves (Run disk 1 256) (InImage disk header.now body.now (S.meaning shelf.old)) (S.meaning shelf.old) (S.meaning shelf.new) }
    ensures leaves { LeavesOldOrNew disk header.now body.now (S.meaning shelf.old) (S.meaning shelf.new) }
    ensures ok { OnOk result (LeavesNew disk header.now body.now (S.meaning shelf.old) (S.meaning shelf.new)) }
    ensures cause { Cause (S.meaning shelf.old) (S.meaning shelf.new) disk result }
    ensures calls { OnOk result (MakesCalls 4 (S.meaning shelf.old) (S.meaning shelf.new)) }
{
    let area = find_target(shelf, disk)?;
    put(shelf, disk, area + 1, body)?;
    put_header(shelf, disk, area, header)
}

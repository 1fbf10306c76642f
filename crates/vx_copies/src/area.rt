// What a configuration area shows.
ghost use Rattle.std.specs.Prelude.{◌≡◌, ◌+◌, ◌*◌, ◌<◌, ◌≤◌, length, IfOk, IsTrue};
ghost use Rattle.vx_copyfmt.specs.Areas.{CanSpellArea};
ghost use Rattle.vx_copyfmt.specs.Copies.{copy_with};
ghost use Rattle.vx_copyfmt.specs.Commits.{IsHeaderBlock};
ghost use Rattle.vx_copies.specs.Looking.{CountsArea, CopyFits, FitsArea, SeesArea, SeesBody, copy_view, on_shelf};
ghost use Rattle.vx_disk.specs.Causes.{OnDisks};
ghost use Rattle.vx_disk.specs.Disks.{Untouched};
ghost use Rattle.vx_disk.specs.Shelf.{Goes, Nothing};

use crate::body::read_body;
use crate::{AreaSeen, BodySeen, CopySeen};
use std::alloc::Global;
use vx_copyfmt::{AreaHeader, get_area};
use vx_disk::Shelf;
use vx_model::OutOfMemory;
use vx_model::limits::{BLOCK, MOST_CONFIG_BYTES};
use vx_wire::digest;

// What a header and its body are as a copy: none where the body is no configuration of this shelf, or has another serial than the header.
fn judge<S: Shelf>(
    alloc: Global,
    shelf: &S,
    area: u32,
    header: &AreaHeader,
    body: &[u8],
) -> Result<Option<CopySeen>, OutOfMemory>
    ensures copy { IfOk result (λ seen. copy_with (on_shelf (S.meaning shelf.now)) area header.now body.now ≡ copy_view seen) }
    ensures fits { IfOk result (CopyFits (S.meaning shelf.now).units) }
{
    let computed = digest(body);
    let (serial, stored) = (header.serial, header.digest);
    if computed != stored {
        let body = BodySeen::Differs { stored, computed };
        return Ok(Some(CopySeen { serial, area, body }));
    }
    match read_body(alloc, shelf, body) {
        Ok(Some(config)) => {
            if config.serial != serial {
                return Ok(None);
            }
            let body = BodySeen::Holds(config);
            Ok(Some(CopySeen { serial, area, body }))
        }
        Ok(None) => Ok(None),
        Err(error) => Err(error),
    }
}

// Reads the body behind a header.
fn read_copy<S: Shelf>(
    alloc: Global,
    shelf: &mut S,
    disk: u32,
    area: u32,
    header: &AreaHeader,
    room: &mut [u8],
) -> Result<AreaSeen, OutOfMemory>
    requires there { disk < (S.meaning shelf.old).units }
    requires large { area + 128 ≤ (S.meaning shelf.old).size disk }
    requires up { IsTrue (S.meaning shelf.old).down → ⊥ }
    requires can { CanSpellArea header.now }
    requires room { length room.old ≡ MOST_CONFIG_BYTES }
    ensures sees { IfOk result (SeesBody disk area header.now (S.meaning shelf.old) (S.meaning shelf.new)) }
    ensures counts { IfOk result (CountsArea disk (S.meaning shelf.old).faults (S.meaning shelf.new).faults) }
    ensures fits { IfOk result (FitsArea (S.meaning shelf.old).units) }
    ensures room { length room.new ≡ MOST_CONFIG_BYTES }
    ensures goes { Goes Nothing (S.meaning shelf.old) (S.meaning shelf.new) }
    ensures down { (S.meaning shelf.new).down ≡ (S.meaning shelf.old).down }
    ensures disks { OnDisks (S.meaning shelf.old).disks (S.meaning shelf.new).disks Untouched }
{
    let length = header.length as usize;
    let filled = BLOCK * length.div_ceil(BLOCK);
    match shelf.read(disk, area as u64 + 1, &mut room[..filled]) {
        Ok(()) => match judge(alloc, shelf, area, header, &room[..length]) {
            Ok(copy) => Ok(AreaSeen::Seen(copy)),
            Err(error) => Err(error),
        },
        Err(_) => Ok(AreaSeen::Unreadable),
    }
}

// Reads an area.
pub fn read_area<S: Shelf>(
    alloc: Global,
    shelf: &mut S,
    disk: u32,
    area: u32,
    room: &mut [u8],
) -> Result<AreaSeen, OutOfMemory>
    requires there { disk < (S.meaning shelf.old).units }
    requires large { area + 128 ≤ (S.meaning shelf.old).size disk }
    requires up { IsTrue (S.meaning shelf.old).down → ⊥ }
    requires header { IsHeaderBlock area }
    requires room { length room.old ≡ MOST_CONFIG_BYTES }
    ensures sees { IfOk result (SeesArea disk area (S.meaning shelf.old) (S.meaning shelf.new)) }
    ensures counts { IfOk result (CountsArea disk (S.meaning shelf.old).faults (S.meaning shelf.new).faults) }
    ensures fits { IfOk result (FitsArea (S.meaning shelf.old).units) }
    ensures room { length room.new ≡ MOST_CONFIG_BYTES }
    ensures goes { Goes Nothing (S.meaning shelf.old) (S.meaning shelf.new) }
    ensures down { (S.meaning shelf.new).down ≡ (S.meaning shelf.old).down }
    ensures disks { OnDisks (S.meaning shelf.old).disks (S.meaning shelf.new).disks Untouched }
{
    let mut block = [0; BLOCK];
    match shelf.read(disk, area as u64, &mut block) {
        Ok(()) => match get_area(&block) {
            Some(header) => read_copy(alloc, shelf, disk, area, &header, room),
            None => Ok(AreaSeen::Seen(None)),
        },
        Err(_) => Ok(AreaSeen::Unreadable),
    }
}

// Groups of mirrored disks in memory, and the calls of a write.
ghost use Rattle.std.specs.Prelude.{◌≡◌, None};

use std::alloc::Global;
use vx_disk::{MemShelf, Rack, Shelf};
use vx_layout::Shape;
use vx_loggroup::LoggedGroup;
use vx_model::Name;
use vx_model::limits::{BLOCK, MOST_CALL_BLOCKS, MOST_DISKS};

/// A volume of 1,024 blocks on two plexes, with these logs.
pub fn shape(drl: bool, fmr: bool) -> Shape
    ensures { result.prefer ≡ None }
{
    Shape {
        blocks: 1024,
        mirrors: 2,
        ncol: 1,
        width: 0,
        drl,
        fmr,
        prefer: None,
    }
}

/// A new group over three disks, with such a volume and a fuse of so many writes and flushes.
pub fn group(alloc: Global, want: &Shape, fuse: u64) -> Option<LoggedGroup<MemShelf>>
    requires plain { want.now.prefer ≡ None }
{
    let Ok(mut shelf) = MemShelf::new(alloc, &[]) else {
        return None;
    };
    if shelf.fit(alloc, None, 0, 3, 4096).is_err() {
        return None;
    }
    shelf.fuse(fuse, 0);
    if shelf.units() == 0 || shelf.units() > MOST_DISKS {
        return None;
    }
    match LoggedGroup::create(alloc, shelf, 0) {
        Ok(mut group) => match group.make_volume(alloc, &Name::new(b"v"), want) {
            Ok(_) => Some(group),
            Err(_) => None,
        },
        Err(_) => None,
    }
}

/// Writes these blocks at a place of the volume, and makes them durable. False where it is refused.
pub fn write(group: &mut LoggedGroup<MemShelf>, start: u64, bytes: &[u8]) -> bool {
    let blocks = (bytes.len() / BLOCK) as u64;
    if group.units() == 0
        || blocks == 0
        || bytes.len() % BLOCK != 0
        || blocks > MOST_CALL_BLOCKS
        || start > 1000
    {
        return false;
    }
    if start + blocks > group.size(0) {
        return false;
    }
    group.write(0, start, bytes).is_ok() && group.flush(0).is_ok()
}

/// How many writes and flushes of disks three writes of a volume make, each made durable: the first of all, with which its logs begin, the first
/// one in another region, and one more there. For so many lengths of a fuse a write is not done, and those before it are.
pub fn calls_of(alloc: Global, want: &Shape, bytes: &[u8]) -> (u64, u64, u64)
    requires plain { want.now.prefer ≡ None }
{
    let mut begin: u64 = 0;
    let mut first: u64 = 0;
    let mut next: u64 = 0;
    for fuse in 0..5000 {
        if let Some(mut made) = group(alloc, want, fuse) {
            if !write(&mut made, 0, bytes) {
                begin = begin.saturating_add(1);
            } else if !write(&mut made, 512, bytes) {
                first = first.saturating_add(1);
            } else if !write(&mut made, 512, bytes) {
                next = next.saturating_add(1);
            } else {
                return (begin, first, next);
            }
        }
    }
    (begin, first, next)
}

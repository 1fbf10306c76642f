// Which blocks of a write have what it was to write.
ghost use Rattle.std.specs.Prelude.{◌≡◌, ◌≤◌, ◌*◌, ◌+◌, ◌%◌, IfErr, IfOk, bytes_eq, length};
ghost use Rattle.vx_disk.specs.Causes.{DeviceCause};
ghost use Rattle.vx_disk.specs.Shelf.{Fits, Goes, Nothing};
ghost use Rattle.vx_group.specs.Holding.{wide};
ghost use Rattle.vx_group.specs.Stands.{inner_meaning};
ghost use Rattle.vx_grouped.specs.GroupNotes.{IsGroupAt};
ghost use Rattle.vx_grouped.specs.Keepings.{BytesKept, KeepsPlain};
ghost use Rattle.vx_grouped.specs.Plain.{HoldsPlain};
ghost use Rattle.vx_grouped.specs.PlainMaps.{map_parts};
ghost use Rattle.vx_history.specs.Groups.{GroupNode};
ghost use Rattle.vx_history.specs.World.{Node};
ghost use Rattle.vx_model.specs.Content.{block_of};

use vx_disk::{Shelf, refusal};
use vx_loggroup::LoggedGroup;
use vx_model::No;
use vx_model::limits::{BLOCK, MOST_CALL_BLOCKS, MOST_CALL_BYTES};

// Whether this block is the same in both.
fn is_same(first: &[u8], second: &[u8], block: u64) -> bool
    requires first { BLOCK * block + BLOCK ≤ length first.now }
    requires second { BLOCK * block + BLOCK ≤ length second.now }
    requires few { length first.now ≤ MOST_CALL_BYTES }
    ensures { result ≡ bytes_eq (block_of first.now block) (block_of second.now block) }
{
    let start = BLOCK * block as usize;
    first[start..start + BLOCK] == second[start..start + BLOCK]
}

// Block by block whether what was read is what was to be written.
fn compared(found: &[u8], bytes: &[u8]) -> [bool; MOST_CALL_BLOCKS as usize]
    requires same { length found.now ≡ length bytes.now }
    requires few { length bytes.now ≤ MOST_CALL_BYTES }
    requires whole { length bytes.now % BLOCK ≡ 0 }
    ensures { BytesKept found.now bytes.now result }
{
    let mut bits = [false; MOST_CALL_BLOCKS as usize];
    for block in 0..bytes.len() / BLOCK {
        bits[block] = is_same(found, bytes, block as u64);
    }
    bits
}

/// Reads the blocks of a write of a volume, and says of each whether it has what was to be written: where contents are told, whether a value that
/// it may have is that. What is noted of the group stays.
///
/// Answers 7 only where the count of the disk that it names rose, and 6 only where the shelf is down; nothing else.
pub fn kept_plain<S: Shelf>(
    group: &mut LoggedGroup<S>,
    vol: u32,
    block: u64,
    bytes: &[u8],
) -> Result<[bool; MOST_CALL_BLOCKS as usize], No>
    requires fits { Fits (inner_meaning (wide group.old.core) (S.meaning group.old.shelf)) vol block (length bytes.now) }
    requires few { length bytes.now ≤ MOST_CALL_BYTES }
    ensures kept { (note : GroupNode) → HoldsPlain note (inner_meaning (wide group.old.core) (S.meaning group.old.shelf)) → IfOk result (KeepsPlain note (S.meaning group.old.shelf) vol block bytes.now) }
    ensures stays { (n : Node) (note : GroupNode) → IsGroupAt n note group.old.core (S.meaning group.old.shelf) → IsGroupAt n note group.new.core (S.meaning group.new.shelf) }
    ensures goes { Goes Nothing (inner_meaning (wide group.old.core) (S.meaning group.old.shelf)) (inner_meaning (wide group.new.core) (S.meaning group.new.shelf)) }
    ensures same { group.new.core.inner.config ≡ group.old.core.inner.config }
    ensures below { Goes Nothing (S.meaning group.old.shelf) (S.meaning group.new.shelf) }
    ensures cause { IfErr result (DeviceCause (S.meaning group.old.shelf) (S.meaning group.new.shelf)) }
    ensures maps { map_parts group.new.core.inner.config group.new.logs.items group.new.alike group.new.stopped ≡ map_parts group.old.core.inner.config group.old.logs.items group.old.alike group.old.stopped }
{
    let mut found = [0; MOST_CALL_BYTES];
    match group.read(vol, block, &mut found[..bytes.len()]) {
        Ok(()) => Ok(compared(&found[..bytes.len()], bytes)),
        Err(failed) => Err(refusal(failed)),
    }
}

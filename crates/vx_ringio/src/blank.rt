// The zeros under a new log.
ghost use Rattle.std.specs.Prelude.{◌≡◌, ◌+◌, ◌-◌, ◌*◌, ◌<◌, ◌≤◌, ℕ, min, IsTrue, OnOk};
ghost use Rattle.vx_disk.specs.Causes.{Cause};
ghost use Rattle.vx_disk.specs.Moves.{Moves, Run, Anything};
ghost use Rattle.vx_ringio.specs.Reading.{LeavesAs, ReadsZero};
ghost use Rattle.vx_disk.specs.Spends.{Spends};
ghost use Rattle.vx_ringio.specs.Tracks.{RingLies};
ghost use Rattle.vx_srlfmt.specs.Kinds.{Other};

use vx_disk::{Shelf, ShelfError};
use vx_model::limits::{BLOCK, LOG_HEADERS, MOST_CALL_BLOCKS, MOST_CALL_BYTES, MOST_LOG_BLOCKS};

// The blocks of one chunk, as many as a call may write, or those of the last one.
fn blank_chunk<S: Shelf>(shelf: &mut S, unit: u32, used: u64, chunk: u64) -> Result<(), ShelfError>
    requires exists { unit < (S.meaning shelf.old).units }
    requires few { used ≤ MOST_LOG_BLOCKS }
    requires within { used ≤ (S.meaning shelf.old).size unit }
    requires chunk { MOST_CALL_BLOCKS * chunk < used }
    ensures moves { Moves (Run unit 0 used) Anything (S.meaning shelf.old) (S.meaning shelf.new) }
    ensures ok { OnOk result (ReadsZero unit (MOST_CALL_BLOCKS * chunk) (S.meaning shelf.old) → ReadsZero unit (min (MOST_CALL_BLOCKS * (chunk + 1)) used) (S.meaning shelf.new)) }
    ensures cause { Cause (S.meaning shelf.old) (S.meaning shelf.new) unit result }
    ensures spends { Spends (S.meaning shelf.old) (S.meaning shelf.new) }
{
    let zeros = [0; MOST_CALL_BYTES];
    let first = MOST_CALL_BLOCKS * chunk;
    let count = (used - first).min(MOST_CALL_BLOCKS);
    shelf.write(unit, first, &zeros[..BLOCK * count as usize])
}

/// Writes zeros over the headers and the ring, and makes them durable.
pub fn blank_ring<S: Shelf>(shelf: &mut S, unit: u32, ring: u64) -> Result<(), ShelfError>
    requires lies { RingLies unit ring (S.meaning shelf.old) }
    requires few { ring ≤ MOST_LOG_BLOCKS - LOG_HEADERS }
    ensures moves { Moves (Run unit 0 (ring + 2)) Anything (S.meaning shelf.old) (S.meaning shelf.new) }
    ensures leaves { OnOk result (IsTrue (S.meaning shelf.old).tells → LeavesAs unit ring (λ b. Other) (S.meaning shelf.new)) }
    ensures cause { Cause (S.meaning shelf.old) (S.meaning shelf.new) unit result }
    ensures spends { Spends (S.meaning shelf.old) (S.meaning shelf.new) }
{
    let used = ring + LOG_HEADERS;
    for chunk in 0..used.div_ceil(MOST_CALL_BLOCKS) {
        blank_chunk(shelf, unit, used, chunk)?;
    }
    shelf.flush(unit)
}

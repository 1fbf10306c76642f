// The change of a run of regions.
ghost use Rattle.std.specs.Prelude.{◌≡◌, ◌+◌, ◌*◌, ◌/◌, ◌%◌, ◌<◌, ◌≤◌, ◌^◌, ℕ, length, IfErr, OnOk, OnErr, Err};
ghost use Rattle.vx_bitmap.specs.Bits.{AllAre, Between, Changed, is_marked};
ghost use Rattle.vx_bitmap.specs.Maps.{ChangedAt, Changing, Lies, MapOn, ShelfCause};
ghost use Rattle.vx_disk.specs.Causes.{Cause, DeviceCause, Names, refusal_of};
ghost use Rattle.vx_disk.specs.Moves.{Moves, Run};
ghost use Rattle.vx_disk.specs.Shelf.{Goes};
ghost use Rattle.vx_disk.specs.Spends.{Spends};

use crate::run::mark_run;
use vx_disk::{Shelf, ShelfError, put};
use vx_model::limits::{BLOCK, MAP_REGIONS};

// Changes a run of regions of one block, durably. Where all of them have that value already it makes no call.
fn change_block<S: Shelf>(
    shelf: &mut S,
    unit: u32,
    first: u64,
    bytes: &mut [u8],
    block: u64,
    start: u64,
    end: u64,
    value: bool,
) -> Result<(), ShelfError>
    requires lies { Lies (record { unit = unit; first = first; bytes = bytes.old }) (S.meaning shelf.old) }
    requires whole { length bytes.old % BLOCK ≡ 0 }
    requires inside { block < length bytes.old / BLOCK }
    requires from { MAP_REGIONS * block ≤ start }
    requires to { end < MAP_REGIONS * block + MAP_REGIONS }
    requires some { start ≤ end }
    ensures moves { Moves (Run unit first (length bytes.old / BLOCK)) (Changing (record { unit = unit; first = first; bytes = bytes.old }) start end value (S.meaning shelf.old)) (S.meaning shelf.old) (S.meaning shelf.new) }
    ensures writes { Goes (ChangedAt (record { unit = unit; first = first; bytes = bytes.old }) start end value (S.meaning shelf.old)) (S.meaning shelf.old) (S.meaning shelf.new) }
    ensures stands { OnOk result (MapOn (record { unit = unit; first = first; bytes = bytes.old }) (S.meaning shelf.old) → MapOn (record { unit = unit; first = first; bytes = bytes.new }) (S.meaning shelf.new)) }
    ensures changed { OnOk result (Changed start end value (8 * length bytes.old) (is_marked bytes.old) (is_marked bytes.new)) }
    ensures refused { OnErr result (bytes.new ≡ bytes.old) }
    ensures cause { IfErr result (λ e. Cause {T = Unit {0}} (S.meaning shelf.old) (S.meaning shelf.new) unit (Err e)) }
    ensures up { ShelfCause unit (S.meaning shelf.old) (S.meaning shelf.new) result }
    ensures nothing { AllAre start end value (is_marked bytes.old) → shelf.new ≡ shelf.old }
    ensures spends { Spends (S.meaning shelf.old) (S.meaning shelf.new) }
    ensures names { Names (S.meaning shelf.old).disks unit result }
{
    let at = (BLOCK as u64 * block) as usize;
    let mut fresh = [0; BLOCK];
    fresh.copy_from_slice(&bytes[at..at + BLOCK]);
    mark_run(
        &mut fresh,
        start - MAP_REGIONS * block,
        end - MAP_REGIONS * block,
        value,
    );
    if fresh[..] == bytes[at..at + BLOCK] {
        return Ok(());
    }
    put(shelf, unit, first + block, &fresh)?;
    bytes[at..at + BLOCK].copy_from_slice(&fresh);
    Ok(())
}

/// Changes a run of regions, durably, one block after another. Where all of a block's have that value already it makes no call for it.
pub(crate) fn change<S: Shelf>(
    shelf: &mut S,
    unit: u32,
    first: u64,
    bytes: &mut [u8],
    start: u64,
    end: u64,
    value: bool,
) -> Result<(), ShelfError>
    requires lies { Lies (record { unit = unit; first = first; bytes = bytes.old }) (S.meaning shelf.old) }
    requires whole { length bytes.old % BLOCK ≡ 0 }
    requires some { start ≤ end }
    requires last { end < 8 * length bytes.old }
    ensures moves { Moves (Run unit first (length bytes.old / BLOCK)) (Changing (record { unit = unit; first = first; bytes = bytes.old }) start end value (S.meaning shelf.old)) (S.meaning shelf.old) (S.meaning shelf.new) }
    ensures writes { Goes (ChangedAt (record { unit = unit; first = first; bytes = bytes.old }) start end value (S.meaning shelf.old)) (S.meaning shelf.old) (S.meaning shelf.new) }
    ensures stands { OnOk result (MapOn (record { unit = unit; first = first; bytes = bytes.old }) (S.meaning shelf.old) → MapOn (record { unit = unit; first = first; bytes = bytes.new }) (S.meaning shelf.new)) }
    ensures changed { OnOk result (Changed start end value (8 * length bytes.old) (is_marked bytes.old) (is_marked bytes.new)) }
    ensures part { Between start end value (8 * length bytes.old) (is_marked bytes.old) (is_marked bytes.new) }
    ensures cause { IfErr result (λ e. DeviceCause (S.meaning shelf.old) (S.meaning shelf.new) (refusal_of e)) }
    ensures up { ShelfCause unit (S.meaning shelf.old) (S.meaning shelf.new) result }
    ensures nothing { AllAre start end value (is_marked bytes.old) → shelf.new ≡ shelf.old }
    ensures spends { Spends (S.meaning shelf.old) (S.meaning shelf.new) }
    ensures names { Names (S.meaning shelf.old).disks unit result }
{
    for block in start / MAP_REGIONS..end / MAP_REGIONS + 1 {
        let from = start.max(MAP_REGIONS * block);
        let to = end.min(MAP_REGIONS * block + (MAP_REGIONS - 1));
        change_block(shelf, unit, first, bytes, block, from, to, value)?;
    }
    Ok(())
}

// The logging of a write whose regions are marked first.
ghost use Rattle.std.specs.Prelude.{◌≡◌, ◌≤◌, ◌<◌, ◌+◌, ◌^◌, [], ◌∷◌, length, None, true, IfErr, IsFalse, IsSome, OnOk};
ghost use Rattle.vx_dcm.specs.Places.{IsOfSlots, MapsBetween};
ghost use Rattle.vx_disk.specs.Burns.{FallsShort, MakesCalls};
ghost use Rattle.vx_disk.specs.Causes.{Works};
ghost use Rattle.vx_disk.specs.Moves.{Moves, Run, Union};
ghost use Rattle.vx_disk.specs.Spends.{MakesAtLeast, Spends};
ghost use Rattle.vx_model.specs.Content.{Write, blocks_in};
ghost use Rattle.vx_ringio.specs.Bodies.{IsBlocks};
ghost use Rattle.vx_srl.specs.Views.{BodyFits, blocks_needed, free_of, most_number};
ghost use Rattle.vx_rvg.specs.Groups.{WriteIs, Writes, write_refusal};
ghost use Rattle.vx_rvg.specs.Holdings.{Holding, with_writes};
ghost use Rattle.vx_rvg.specs.Marks.{BlamesMarkedWrite, HasAllMaps, MarkedWriting, WriteMarked, write_first, write_last, map_run, with_marks, write_places};
ghost use Rattle.vx_rvg.specs.Stands.{Stands};
ghost use Rattle.vx_rvg.specs.Views.{IsSound, last_of, unit_of, volume_size};

use crate::RvgCore;
use crate::mark::mark_named;
use crate::write::commit;
use vx_disk::Shelf;
use vx_model::No;
use vx_model::limits::{BLOCK, REGION};

/// The last region of a write.
pub(crate) fn end_region(start: u64, bytes: &[u8]) -> u64
    requires blocks { IsBlocks bytes.now }
    requires end { start + blocks_in bytes.now < 2 ^ 64 }
    ensures { result ≡ write_last start (blocks_in bytes.now) }
{
    (start + (bytes.len() / BLOCK) as u64 - 1) / REGION
}

// Marks the regions of a write, and then logs it.
fn mark_and_commit<S: Shelf>(
    shelf: &mut S,
    core: &mut RvgCore,
    vol: u32,
    start: u64,
    bytes: &[u8],
    marks: u8,
) -> Result<u64, No>
    requires sound { IsSound core.old (S.meaning shelf.old) }
    requires some { 0 < core.old.log.header.low }
    requires running { core.old.halted ≡ None }
    requires up { IsFalse (S.meaning shelf.old).down }
    requires volume { vol < length core.old.units.vols }
    requires blocks { IsBlocks bytes.now }
    requires room { blocks_needed bytes.now ≤ free_of core.old.log }
    requires within { start + blocks_in bytes.now ≤ volume_size core.old.units.vols (S.meaning shelf.old) vol }
    requires number { last_of core.old < most_number }
    ensures writes { Writes (record core.old { maps = core.new.maps }) vol start bytes.now (S.meaning shelf.old) (S.meaning shelf.new) core.new result }
    ensures sound { IsSound core.new (S.meaning shelf.new) }
    ensures stands { OnOk result ((h : Holding) → Stands core.old h (S.meaning shelf.old) → HasAllMaps core.old.maps h.maps
        → Stands core.new (with_writes (record { volume = vol; start = start; bytes = bytes.now } ∷ []) (with_marks core.new.maps h)) (S.meaning shelf.new)) }
    ensures marked { OnOk result (WriteMarked core.new marks vol start (blocks_in bytes.now)) }
    ensures part { MapsBetween (IsOfSlots marks vol (write_first start) (write_last start (blocks_in bytes.now))) true core.old.maps core.new.maps }
    ensures moves { Moves (Union (map_run core.old) (Run core.old.units.srl 0 (core.old.log.ring + 2)))
        (MarkedWriting core.old (write_places core.old marks vol start (blocks_in bytes.now)) (record { volume = vol; start = start; bytes = bytes.now }) (S.meaning shelf.old))
        (S.meaning shelf.old) (S.meaning shelf.new) }
    ensures calls { WriteMarked core.old marks vol start (blocks_in bytes.now) → OnOk result (BodyFits core.old.log bytes.now → MakesCalls 4 (S.meaning shelf.old) (S.meaning shelf.new)) }
    ensures short { WriteMarked core.old marks vol start (blocks_in bytes.now) → BodyFits core.old.log bytes.now → FallsShort 4 (S.meaning shelf.old) (S.meaning shelf.new) }
    ensures blames { IfErr result (BlamesMarkedWrite (S.meaning shelf.old).disks core.old) }
    ensures least { OnOk result (MakesAtLeast 4 (S.meaning shelf.old) (S.meaning shelf.new)) }
    ensures spends { Spends (S.meaning shelf.old) (S.meaning shelf.new) }
    ensures works { OnOk result (Works (S.meaning shelf.old).disks core.old.log.unit) }
{
    let last = end_region(start, bytes);
    if let Err(no) = mark_named(shelf, core, marks, vol, start / REGION, last) {
        return Err(no);
    }
    commit(shelf, core, vol, start, bytes)
}

/// Logs a write whose regions are marked first in the maps of the places that are named.
pub(crate) fn write_marked<S: Shelf>(
    shelf: &mut S,
    core: &mut RvgCore,
    vol: u32,
    start: u64,
    bytes: &[u8],
    marks: u8,
) -> Result<u64, No>
    requires sound { IsSound core.old (S.meaning shelf.old) }
    requires volume { vol < length core.old.units.vols }
    requires blocks { IsBlocks bytes.now }
    requires room { write_refusal core.old ((S.meaning shelf.old).size (unit_of core.old.units.vols vol)) start (blocks_in bytes.now) ≡ None → blocks_needed bytes.now ≤ free_of core.old.log }
    ensures answers { WriteIs (write_refusal core.old ((S.meaning shelf.old).size (unit_of core.old.units.vols vol)) start (blocks_in bytes.now))
        (record core.old { maps = core.new.maps }) vol start bytes.now (S.meaning shelf.old) (S.meaning shelf.new) core.new result }
    ensures unchanged { IsSome (write_refusal core.old ((S.meaning shelf.old).size (unit_of core.old.units.vols vol)) start (blocks_in bytes.now)) → shelf.new ≡ shelf.old }
    ensures sound { IsSound core.new (S.meaning shelf.new) }
    ensures stands { OnOk result ((h : Holding) → Stands core.old h (S.meaning shelf.old) → HasAllMaps core.old.maps h.maps
        → Stands core.new (with_writes (record { volume = vol; start = start; bytes = bytes.now } ∷ []) (with_marks core.new.maps h)) (S.meaning shelf.new)) }
    ensures marked { OnOk result (WriteMarked core.new marks vol start (blocks_in bytes.now)) }
    ensures part { MapsBetween (IsOfSlots marks vol (write_first start) (write_last start (blocks_in bytes.now))) true core.old.maps core.new.maps }
    ensures moves { Moves (Union (map_run core.old) (Run core.old.units.srl 0 (core.old.log.ring + 2)))
        (MarkedWriting core.old (write_places core.old marks vol start (blocks_in bytes.now)) (record { volume = vol; start = start; bytes = bytes.now }) (S.meaning shelf.old))
        (S.meaning shelf.old) (S.meaning shelf.new) }
    ensures calls { WriteMarked core.old marks vol start (blocks_in bytes.now) → OnOk result (BodyFits core.old.log bytes.now → MakesCalls 4 (S.meaning shelf.old) (S.meaning shelf.new)) }
    ensures short { WriteMarked core.old marks vol start (blocks_in bytes.now) → BodyFits core.old.log bytes.now → FallsShort 4 (S.meaning shelf.old) (S.meaning shelf.new) }
    ensures blames { IfErr result (BlamesMarkedWrite (S.meaning shelf.old).disks core.old) }
    ensures least { OnOk result (MakesAtLeast 4 (S.meaning shelf.old) (S.meaning shelf.new)) }
    ensures spends { Spends (S.meaning shelf.old) (S.meaning shelf.new) }
    ensures works { OnOk result (Works (S.meaning shelf.old).disks core.old.log.unit) }
{
    let unit = core.unit(vol);
    let size = shelf.size(unit);
    if let Some(no) = core.write_refusal(size, start, (bytes.len() / BLOCK) as u64) {
        return Err(no);
    }
    if shelf.is_down() {
        return Err(No::Down);
    }
    mark_and_commit(shelf, core, vol, start, bytes, marks)
}

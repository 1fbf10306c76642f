// The staging of a write whose regions are marked first.
ghost use Rattle.std.specs.Prelude.{◌≡◌, ◌+◌, ◌<◌, ◌≤◌, [], ◌∷◌, ◌++◌, List, length, None, true, IsSome, IfErr, OnOk};
ghost use Rattle.vx_dcm.specs.Places.{IsOfSlots, MapsBetween};
ghost use Rattle.vx_disk.specs.Burns.{FallsShort, MakesCalls};
ghost use Rattle.vx_disk.specs.Causes.{Works};
ghost use Rattle.vx_disk.specs.Moves.{Moves, Run, Union};
ghost use Rattle.vx_disk.specs.Spends.{MakesAtLeast, Spends};
ghost use Rattle.vx_model.specs.Content.{Write, blocks_in};
ghost use Rattle.vx_ringio.specs.Bodies.{IsBlocks};
ghost use Rattle.vx_rvg.specs.Commits.{HasStaged, StageIs, number_refusal, stage_refusal};
ghost use Rattle.vx_rvg.specs.Groups.{write_refusal};
ghost use Rattle.vx_rvg.specs.Holdings.{Holding};
ghost use Rattle.vx_rvg.specs.Marks.{BlamesMarkedWrite, HasAllMaps, WriteMarked, map_run, with_marks, write_first, write_last, write_places};
ghost use Rattle.vx_rvg.specs.StagedMarks.{StagedMarking};
ghost use Rattle.vx_rvg.specs.Views.{IsSoundWith, unit_of, volume_size};
ghost use Rattle.vx_srl.specs.Views.{BodyFits, blocks_needed, free_of};

use crate::RvgCore;
use crate::mark::mark_named;
use crate::marked::end_region;
use crate::stage::stage_record;
use vx_disk::Shelf;
use vx_model::No;
use vx_model::limits::{BLOCK, REGION};

// Marks the regions of a write, and then stages it.
fn mark_and_stage<S: Shelf>(
    shelf: &mut S,
    core: &mut RvgCore,
    vol: u32,
    start: u64,
    bytes: &[u8],
    marks: u8,
) -> Result<u64, No>
    requires sound { IsSoundWith core.old.log.staged core.old (S.meaning shelf.old) }
    requires some { 0 < core.old.log.header.low }
    requires volume { vol < length core.old.units.vols }
    requires blocks { IsBlocks bytes.now }
    requires room { blocks_needed bytes.now ≤ free_of core.old.log }
    requires within { start + blocks_in bytes.now ≤ volume_size core.old.units.vols (S.meaning shelf.old) vol }
    ensures answers { StageIs (number_refusal core.old) (record core.old { maps = core.new.maps }) vol start bytes.now (S.meaning shelf.old) (S.meaning shelf.new) core.new result }
    ensures unchanged { IsSome (number_refusal core.old) → shelf.new ≡ shelf.old }
    ensures sound { IsSoundWith core.new.log.staged core.new (S.meaning shelf.new) }
    ensures staged { OnOk result ((xs : List Write) (h : Holding) → HasStaged xs core.old h (S.meaning shelf.old) → HasAllMaps core.old.maps h.maps
        → HasStaged (xs ++ record { volume = vol; start = start; bytes = bytes.now } ∷ []) core.new (with_marks core.new.maps h) (S.meaning shelf.new)) }
    ensures marked { OnOk result (WriteMarked core.new marks vol start (blocks_in bytes.now)) }
    ensures part { MapsBetween (IsOfSlots marks vol (write_first start) (write_last start (blocks_in bytes.now))) true core.old.maps core.new.maps }
    ensures moves { Moves (Union (map_run core.old) (Run core.old.units.srl 0 (core.old.log.ring + 2)))
        (StagedMarking core.old (write_places core.old marks vol start (blocks_in bytes.now)) true (S.meaning shelf.old)) (S.meaning shelf.old) (S.meaning shelf.new) }
    ensures calls { WriteMarked core.old marks vol start (blocks_in bytes.now) → OnOk result (BodyFits core.old.log bytes.now → MakesCalls 1 (S.meaning shelf.old) (S.meaning shelf.new)) }
    ensures short { WriteMarked core.old marks vol start (blocks_in bytes.now) → BodyFits core.old.log bytes.now → FallsShort 1 (S.meaning shelf.old) (S.meaning shelf.new) }
    ensures blames { IfErr result (BlamesMarkedWrite (S.meaning shelf.old).disks core.old) }
    ensures least { OnOk result (MakesAtLeast 1 (S.meaning shelf.old) (S.meaning shelf.new)) }
    ensures spends { Spends (S.meaning shelf.old) (S.meaning shelf.new) }
    ensures works { OnOk result (Works (S.meaning shelf.old).disks core.old.log.unit) }
{
    if let Some(no) = core.number_refusal() {
        return Err(no);
    }
    if shelf.is_down() {
        return Err(No::Down);
    }
    let last = end_region(start, bytes);
    if let Err(no) = mark_named(shelf, core, marks, vol, start / REGION, last) {
        return Err(no);
    }
    stage_record(shelf, core, vol, start, bytes)
}

/// Stages a write whose regions are marked first in the maps of the places that are named.
pub(crate) fn stage_marked<S: Shelf>(
    shelf: &mut S,
    core: &mut RvgCore,
    vol: u32,
    start: u64,
    bytes: &[u8],
    marks: u8,
) -> Result<u64, No>
    requires sound { IsSoundWith core.old.log.staged core.old (S.meaning shelf.old) }
    requires volume { vol < length core.old.units.vols }
    requires blocks { IsBlocks bytes.now }
    requires room { write_refusal core.old ((S.meaning shelf.old).size (unit_of core.old.units.vols vol)) start (blocks_in bytes.now) ≡ None → blocks_needed bytes.now ≤ free_of core.old.log }
    ensures answers { StageIs (stage_refusal core.old ((S.meaning shelf.old).size (unit_of core.old.units.vols vol)) start (blocks_in bytes.now))
        (record core.old { maps = core.new.maps }) vol start bytes.now (S.meaning shelf.old) (S.meaning shelf.new) core.new result }
    ensures unchanged { IsSome (stage_refusal core.old ((S.meaning shelf.old).size (unit_of core.old.units.vols vol)) start (blocks_in bytes.now)) → shelf.new ≡ shelf.old }
    ensures sound { IsSoundWith core.new.log.staged core.new (S.meaning shelf.new) }
    ensures staged { OnOk result ((xs : List Write) (h : Holding) → HasStaged xs core.old h (S.meaning shelf.old) → HasAllMaps core.old.maps h.maps
        → HasStaged (xs ++ record { volume = vol; start = start; bytes = bytes.now } ∷ []) core.new (with_marks core.new.maps h) (S.meaning shelf.new)) }
    ensures marked { OnOk result (WriteMarked core.new marks vol start (blocks_in bytes.now)) }
    ensures part { MapsBetween (IsOfSlots marks vol (write_first start) (write_last start (blocks_in bytes.now))) true core.old.maps core.new.maps }
    ensures moves { Moves (Union (map_run core.old) (Run core.old.units.srl 0 (core.old.log.ring + 2)))
        (StagedMarking core.old (write_places core.old marks vol start (blocks_in bytes.now)) true (S.meaning shelf.old)) (S.meaning shelf.old) (S.meaning shelf.new) }
    ensures calls { WriteMarked core.old marks vol start (blocks_in bytes.now) → OnOk result (BodyFits core.old.log bytes.now → MakesCalls 1 (S.meaning shelf.old) (S.meaning shelf.new)) }
    ensures short { WriteMarked core.old marks vol start (blocks_in bytes.now) → BodyFits core.old.log bytes.now → FallsShort 1 (S.meaning shelf.old) (S.meaning shelf.new) }
    ensures blames { IfErr result (BlamesMarkedWrite (S.meaning shelf.old).disks core.old) }
    ensures least { OnOk result (MakesAtLeast 1 (S.meaning shelf.old) (S.meaning shelf.new)) }
    ensures spends { Spends (S.meaning shelf.old) (S.meaning shelf.new) }
    ensures works { OnOk result (Works (S.meaning shelf.old).disks core.old.log.unit) }
{
    let unit = core.unit(vol);
    let size = shelf.size(unit);
    if let Some(no) = core.write_refusal(size, start, (bytes.len() / BLOCK) as u64) {
        return Err(no);
    }
    mark_and_stage(shelf, core, vol, start, bytes, marks)
}

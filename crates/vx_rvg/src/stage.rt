// The staging of a write: its blocks are in the log's ring and wait, and it is not part of the log.
ghost use Rattle.std.specs.Prelude.{◌≡◌, ◌+◌, ◌<◌, ◌≤◌, [], ◌∷◌, ◌++◌, List, length, None, true, IsSome, IfErr, OnOk};
ghost use Rattle.vx_disk.specs.Burns.{FallsShort, MakesCalls};
ghost use Rattle.vx_disk.specs.Causes.{BlamesUnit, Works};
ghost use Rattle.vx_dcm.specs.Places.{IsOfSlots, MapsBetween};
ghost use Rattle.vx_disk.specs.Moves.{Moves, Run, Union};
ghost use Rattle.vx_model.specs.Content.{Write, blocks_in};
ghost use Rattle.vx_ringio.specs.Bodies.{IsBlocks};
ghost use Rattle.vx_disk.specs.Spends.{MakesAtLeast, Spends};
ghost use Rattle.vx_rvg.specs.Commits.{Committing, HasStaged, StageIs, number_refusal, stage_refusal};
ghost use Rattle.vx_rvg.specs.Groups.{write_refusal};
ghost use Rattle.vx_rvg.specs.Holdings.{Holding};
ghost use Rattle.vx_rvg.specs.Marks.{BlamesMarkedWrite, ByMarks, HasAllMaps, WriteMarked, map_run, with_marks, write_first, write_last, write_places};
ghost use Rattle.vx_rvg.specs.StagedMarks.{StagedMarking};
ghost use Rattle.vx_rvg.specs.Views.{IsSoundWith, unit_of, volume_size};
ghost use Rattle.vx_srl.specs.Views.{BodyFits, free_of, blocks_needed};

use crate::patch::add_all;
use crate::stage_marked::stage_marked;
use crate::write::refused;
use crate::{RvgCore, Staging};
use vx_disk::Shelf;
use vx_model::No;
use vx_model::limits::BLOCK;

/// Stages a write, and its blocks wait. A device call that fails halts the group.
pub(crate) fn stage_record<S: Shelf>(
    shelf: &mut S,
    core: &mut RvgCore,
    vol: u32,
    start: u64,
    bytes: &[u8],
) -> Result<u64, No>
    requires sound { IsSoundWith core.old.log.staged core.old (S.meaning shelf.old) }
    requires some { 0 < core.old.log.header.low }
    requires volume { vol < length core.old.units.vols }
    requires blocks { IsBlocks bytes.now }
    requires room { blocks_needed bytes.now ≤ free_of core.old.log }
    requires within { start + blocks_in bytes.now ≤ volume_size core.old.units.vols (S.meaning shelf.old) vol }
    ensures answers { StageIs (number_refusal core.old) core.old vol start bytes.now (S.meaning shelf.old) (S.meaning shelf.new) core.new result }
    ensures unchanged { IsSome (number_refusal core.old) → shelf.new ≡ shelf.old }
    ensures sound { IsSoundWith core.new.log.staged core.new (S.meaning shelf.new) }
    ensures staged { OnOk result ((xs : List Write) (h : Holding) → HasStaged xs core.old h (S.meaning shelf.old)
        → HasStaged (xs ++ record { volume = vol; start = start; bytes = bytes.now } ∷ []) core.new h (S.meaning shelf.new)) }
    ensures moves { Moves (Run core.old.units.srl 0 (core.old.log.ring + 2)) (Committing core.old (S.meaning shelf.old)) (S.meaning shelf.old) (S.meaning shelf.new) }
    ensures calls { OnOk result (BodyFits core.old.log bytes.now → MakesCalls 1 (S.meaning shelf.old) (S.meaning shelf.new)) }
    ensures short { BodyFits core.old.log bytes.now → FallsShort 1 (S.meaning shelf.old) (S.meaning shelf.new) }
    ensures blames { IfErr result (BlamesUnit (S.meaning shelf.old).disks core.old.log.unit) }
    ensures least { OnOk result (MakesAtLeast 1 (S.meaning shelf.old) (S.meaning shelf.new)) }
    ensures spends { Spends (S.meaning shelf.old) (S.meaning shelf.new) }
    ensures works { OnOk result (Works (S.meaning shelf.old).disks core.old.log.unit) }
{
    match core.srl.stage(shelf, vol, start, bytes) {
        Ok(number) => {
            add_all(&mut core.pending, vol, start, bytes);
            Ok(number)
        }
        Err(why) => {
            let no = refused(why);
            core.halt(&no);
            Err(no)
        }
    }
}

/// Stages a write whose regions are marked in no map.
fn stage_plain<S: Shelf>(
    shelf: &mut S,
    core: &mut RvgCore,
    vol: u32,
    start: u64,
    bytes: &[u8],
) -> Result<u64, No>
    requires sound { IsSoundWith core.old.log.staged core.old (S.meaning shelf.old) }
    requires volume { vol < length core.old.units.vols }
    requires blocks { IsBlocks bytes.now }
    requires room { write_refusal core.old ((S.meaning shelf.old).size (unit_of core.old.units.vols vol)) start (blocks_in bytes.now) ≡ None → blocks_needed bytes.now ≤ free_of core.old.log }
    ensures answers { StageIs (stage_refusal core.old ((S.meaning shelf.old).size (unit_of core.old.units.vols vol)) start (blocks_in bytes.now))
        core.old vol start bytes.now (S.meaning shelf.old) (S.meaning shelf.new) core.new result }
    ensures unchanged { IsSome (stage_refusal core.old ((S.meaning shelf.old).size (unit_of core.old.units.vols vol)) start (blocks_in bytes.now)) → shelf.new ≡ shelf.old }
    ensures sound { IsSoundWith core.new.log.staged core.new (S.meaning shelf.new) }
    ensures staged { OnOk result ((xs : List Write) (h : Holding) → HasStaged xs core.old h (S.meaning shelf.old)
        → HasStaged (xs ++ record { volume = vol; start = start; bytes = bytes.now } ∷ []) core.new h (S.meaning shelf.new)) }
    ensures moves { Moves (Run core.old.units.srl 0 (core.old.log.ring + 2)) (Committing core.old (S.meaning shelf.old)) (S.meaning shelf.old) (S.meaning shelf.new) }
    ensures calls { OnOk result (BodyFits core.old.log bytes.now → MakesCalls 1 (S.meaning shelf.old) (S.meaning shelf.new)) }
    ensures short { BodyFits core.old.log bytes.now → FallsShort 1 (S.meaning shelf.old) (S.meaning shelf.new) }
    ensures blames { IfErr result (BlamesUnit (S.meaning shelf.old).disks core.old.log.unit) }
    ensures least { OnOk result (MakesAtLeast 1 (S.meaning shelf.old) (S.meaning shelf.new)) }
    ensures spends { Spends (S.meaning shelf.old) (S.meaning shelf.new) }
    ensures works { OnOk result (Works (S.meaning shelf.old).disks core.old.log.unit) }
{
    let unit = core.unit(vol);
    let size = shelf.size(unit);
    if let Some(no) = core.write_refusal(size, start, (bytes.len() / BLOCK) as u64) {
        return Err(no);
    }
    stage_record(shelf, core, vol, start, bytes)
}

impl<S: Shelf> Staging<S> {
    /// Stages 1 to 16 blocks behind what is staged, and answers the number that the write will have. First its regions are marked, durably,
    /// in the map of each place of a link that `marks` names, place k by bit k; so they are marked before any record of the group commit is
    /// part of the log. Then it is one call on the shelf, or two where the blocks pass the end of the log's ring, and makes nothing else
    /// durable.
    ///
    /// There has to be room in the log, for the blocks and one more. Refusals, in this order: 20 where a call answered 7 before, 4
    /// where the record is larger than the ring of the log, 3 where the blocks end past the volume, 19 where no number is left; these
    /// change nothing. 7 where a device call failed: then the group is halted. 6 where the shelf is down. Behind 7 and 6 each of the
    /// regions is as it was or marked. What was staged before stays.
    pub fn stage(&mut self, vol: u32, start: u64, bytes: &[u8], marks: u8) -> Result<u64, No>
        requires volume { vol < length self.old.core.units.vols }
        requires blocks { IsBlocks bytes.now }
        requires room { write_refusal self.old.core ((S.meaning self.old.shelf).size (unit_of self.old.core.units.vols vol)) start (blocks_in bytes.now) ≡ None
            → blocks_needed bytes.now ≤ free_of self.old.core.log }
        ensures answers { ByMarks marks
            (StageIs (stage_refusal self.old.core ((S.meaning self.old.shelf).size (unit_of self.old.core.units.vols vol)) start (blocks_in bytes.now))
            self.old.core vol start bytes.now (S.meaning self.old.shelf) (S.meaning self.new.shelf) self.new.core result)
            (StageIs (stage_refusal self.old.core ((S.meaning self.old.shelf).size (unit_of self.old.core.units.vols vol)) start (blocks_in bytes.now))
            (record self.old.core { maps = self.new.core.maps }) vol start bytes.now (S.meaning self.old.shelf) (S.meaning self.new.shelf) self.new.core result) }
        ensures unchanged { IsSome (stage_refusal self.old.core ((S.meaning self.old.shelf).size (unit_of self.old.core.units.vols vol)) start (blocks_in bytes.now))
            → self.new.shelf ≡ self.old.shelf }
        ensures staged { ByMarks marks
            (OnOk result ((xs : List Write) (h : Holding) → HasStaged xs self.old.core h (S.meaning self.old.shelf)
            → HasStaged (xs ++ record { volume = vol; start = start; bytes = bytes.now } ∷ []) self.new.core h (S.meaning self.new.shelf)))
            (OnOk result ((xs : List Write) (h : Holding) → HasStaged xs self.old.core h (S.meaning self.old.shelf) → HasAllMaps self.old.core.maps h.maps
            → HasStaged (xs ++ record { volume = vol; start = start; bytes = bytes.now } ∷ []) self.new.core (with_marks self.new.core.maps h) (S.meaning self.new.shelf))) }
        ensures marked { OnOk result (WriteMarked self.new.core marks vol start (blocks_in bytes.now)) }
        ensures part { MapsBetween (IsOfSlots marks vol (write_first start) (write_last start (blocks_in bytes.now))) true self.old.core.maps self.new.core.maps }
        ensures moves { ByMarks marks
            (Moves (Run self.old.core.units.srl 0 (self.old.core.log.ring + 2)) (Committing self.old.core (S.meaning self.old.shelf)) (S.meaning self.old.shelf) (S.meaning self.new.shelf))
            (Moves (Union (map_run self.old.core) (Run self.old.core.units.srl 0 (self.old.core.log.ring + 2)))
            (StagedMarking self.old.core (write_places self.old.core marks vol start (blocks_in bytes.now)) true (S.meaning self.old.shelf)) (S.meaning self.old.shelf) (S.meaning self.new.shelf)) }
        ensures calls { ByMarks marks
            (OnOk result (BodyFits self.old.core.log bytes.now → MakesCalls 1 (S.meaning self.old.shelf) (S.meaning self.new.shelf)))
            (WriteMarked self.old.core marks vol start (blocks_in bytes.now) → OnOk result (BodyFits self.old.core.log bytes.now → MakesCalls 1 (S.meaning self.old.shelf) (S.meaning self.new.shelf))) }
        ensures short { ByMarks marks
            (BodyFits self.old.core.log bytes.now → FallsShort 1 (S.meaning self.old.shelf) (S.meaning self.new.shelf))
            (WriteMarked self.old.core marks vol start (blocks_in bytes.now) → BodyFits self.old.core.log bytes.now → FallsShort 1 (S.meaning self.old.shelf) (S.meaning self.new.shelf)) }
        ensures blames { ByMarks marks
            (IfErr result (BlamesUnit (S.meaning self.old.shelf).disks self.old.core.log.unit))
            (IfErr result (BlamesMarkedWrite (S.meaning self.old.shelf).disks self.old.core)) }
        ensures least { OnOk result (MakesAtLeast 1 (S.meaning self.old.shelf) (S.meaning self.new.shelf)) }
        ensures spends { Spends (S.meaning self.old.shelf) (S.meaning self.new.shelf) }
        ensures works { OnOk result (Works (S.meaning self.old.shelf).disks self.old.core.log.unit) }
    {
        if marks == 0 {
            return stage_plain(&mut self.shelf, &mut self.core, vol, start, bytes);
        }
        stage_marked(&mut self.shelf, &mut self.core, vol, start, bytes, marks)
    }
}

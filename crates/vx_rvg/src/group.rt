// A replicated volume group: what it answers, and its reads and writes.
ghost use Rattle.std.specs.Prelude.{◌≡◌, ◌+◌, ◌-◌, ◌<◌, ◌≤◌, ◌%◌, [], ◌∷◌, length, drop, Some, None, true, IsTrue, IfErr, IsFalse, OnOk, IsSome};
ghost use Rattle.vx_disk.specs.Causes.{BlamesUnit, OnDisks, Works};
ghost use Rattle.vx_disk.specs.Disks.{Untouched};
ghost use Rattle.vx_dcm.specs.Places.{IsOfSlots, MapsBetween};
ghost use Rattle.vx_disk.specs.Moves.{Moves, Run, Union};
ghost use Rattle.vx_disk.specs.Shelf.{Goes, Nothing};
ghost use Rattle.vx_model.specs.Content.{Write, blocks_in};
ghost use Rattle.vx_ringio.specs.Bodies.{IsBlocks};
ghost use Rattle.vx_disk.specs.Burns.{FallsShort, MakesCalls};
ghost use Rattle.vx_disk.specs.Spends.{MakesAtLeast, Spends};
ghost use Rattle.vx_rvg.specs.Contents.{ShowsContent};
ghost use Rattle.vx_rvg.specs.Groups.{has_numbers, write_refusal, read_refusal, WriteIs, ReadIs};
ghost use Rattle.vx_rvg.specs.Holdings.{Holding, blocks_taken, with_writes};
ghost use Rattle.vx_rvg.specs.Marks.{BlamesMarkedWrite, ByMarks, HasAllMaps, MarkedWriting, WriteMarked, write_first, write_last, map_run, with_marks, write_places};
ghost use Rattle.vx_rvg.specs.Stands.{Stands, Writing};
ghost use Rattle.vx_rvg.specs.Views.{IsSound, unit_of, last_of};
ghost use Rattle.vx_srl.specs.Views.{BodyFits, free_of, blocks_needed, next_of, blocks_above};
ghost use Rattle.vx_srlfmt.specs.Headers.{CanSpellState};

use crate::RvgCore;
use crate::marked::write_marked;
use crate::read::read_blocks;
use crate::write::write_plain;
use vx_disk::Shelf;
use vx_model::limits::MOST_NUMBER;
use vx_model::{No, State};

/// A replicated volume group over a shelf. Volumes go by their numbers from 0 in its list of data volumes.
#[derive(Drop)]
pub struct Rvg<S: Shelf> {
    pub shelf: S,
    pub core: RvgCore,
    pub ghost sound: { IsSound core (S.meaning shelf) },
}

impl<S: Shelf> Rvg<S> {
    /// Logs 1 to 16 blocks, durably. Answers the number of the write. Before its record is logged its regions are marked, durably, in the
    /// map of each place of a link that `marks` names, place k by bit k. Where none is named, and the blocks do not pass the end of the
    /// log's ring, it is four writes and flushes: the blocks, a flush, the header of the record, a flush; so it is where all of the regions
    /// are marked.
    ///
    /// There has to be room in the log, for the blocks and one more. Refusals, in this order: 20 where a call answered 7 before, 4
    /// where the record is larger than the ring of the log, 3 where the blocks end past the volume, 19 where no number is left; these
    /// change nothing. 7 where a device call failed: then a start finds the log with the write or without it, with it only where all of its
    /// regions are marked, and the group is halted. 6 where the shelf is down. A rack that was up falls in those four calls only where its
    /// fuse had fewer than four left.
    pub fn write(&mut self, vol: u32, start: u64, bytes: &[u8], marks: u8) -> Result<u64, No>
        requires volume { vol < length self.old.core.units.vols }
        requires blocks { IsBlocks bytes.now }
        requires room { write_refusal self.old.core ((S.meaning self.old.shelf).size (unit_of self.old.core.units.vols vol)) start (blocks_in bytes.now) ≡ None
            → blocks_needed bytes.now ≤ free_of self.old.core.log }
        ensures answers { ByMarks marks
            (WriteIs (write_refusal self.old.core ((S.meaning self.old.shelf).size (unit_of self.old.core.units.vols vol)) start (blocks_in bytes.now))
            self.old.core vol start bytes.now (S.meaning self.old.shelf) (S.meaning self.new.shelf) self.new.core result)
            (WriteIs (write_refusal self.old.core ((S.meaning self.old.shelf).size (unit_of self.old.core.units.vols vol)) start (blocks_in bytes.now))
            (record self.old.core { maps = self.new.core.maps }) vol start bytes.now (S.meaning self.old.shelf) (S.meaning self.new.shelf) self.new.core result) }
        ensures unchanged { IsSome (write_refusal self.old.core ((S.meaning self.old.shelf).size (unit_of self.old.core.units.vols vol)) start (blocks_in bytes.now))
            → self.new.shelf ≡ self.old.shelf }
        ensures stands { ByMarks marks
            (OnOk result ((h : Holding) → Stands self.old.core h (S.meaning self.old.shelf)
            → Stands self.new.core (with_writes (record { volume = vol; start = start; bytes = bytes.now } ∷ []) h) (S.meaning self.new.shelf)))
            (OnOk result ((h : Holding) → Stands self.old.core h (S.meaning self.old.shelf) → HasAllMaps self.old.core.maps h.maps
            → Stands self.new.core (with_writes (record { volume = vol; start = start; bytes = bytes.now } ∷ []) (with_marks self.new.core.maps h)) (S.meaning self.new.shelf))) }
        ensures marked { OnOk result (WriteMarked self.new.core marks vol start (blocks_in bytes.now)) }
        ensures part { MapsBetween (IsOfSlots marks vol (write_first start) (write_last start (blocks_in bytes.now))) true self.old.core.maps self.new.core.maps }
        ensures moves { ByMarks marks
            (Moves (Run self.old.core.units.srl 0 (self.old.core.log.ring + 2))
            (Writing self.old.core (record { volume = vol; start = start; bytes = bytes.now } ∷ []) (S.meaning self.old.shelf)) (S.meaning self.old.shelf) (S.meaning self.new.shelf))
            (Moves (Union (map_run self.old.core) (Run self.old.core.units.srl 0 (self.old.core.log.ring + 2)))
            (MarkedWriting self.old.core (write_places self.old.core marks vol start (blocks_in bytes.now)) (record { volume = vol; start = start; bytes = bytes.now }) (S.meaning self.old.shelf))
            (S.meaning self.old.shelf) (S.meaning self.new.shelf)) }
        ensures calls { ByMarks marks
            (OnOk result (BodyFits self.old.core.log bytes.now → MakesCalls 4 (S.meaning self.old.shelf) (S.meaning self.new.shelf)))
            (WriteMarked self.old.core marks vol start (blocks_in bytes.now) → OnOk result (BodyFits self.old.core.log bytes.now → MakesCalls 4 (S.meaning self.old.shelf) (S.meaning self.new.shelf))) }
        ensures short { ByMarks marks
            (BodyFits self.old.core.log bytes.now → FallsShort 4 (S.meaning self.old.shelf) (S.meaning self.new.shelf))
            (WriteMarked self.old.core marks vol start (blocks_in bytes.now) → BodyFits self.old.core.log bytes.now → FallsShort 4 (S.meaning self.old.shelf) (S.meaning self.new.shelf)) }
        ensures blames { ByMarks marks
            (IfErr result (BlamesUnit (S.meaning self.old.shelf).disks self.old.core.log.unit))
            (IfErr result (BlamesMarkedWrite (S.meaning self.old.shelf).disks self.old.core)) }
        ensures least { OnOk result (MakesAtLeast 4 (S.meaning self.old.shelf) (S.meaning self.new.shelf)) }
        ensures spends { Spends (S.meaning self.old.shelf) (S.meaning self.new.shelf) }
        ensures works { OnOk result (Works (S.meaning self.old.shelf).disks self.old.core.log.unit) }
    {
        if marks == 0 {
            return write_plain(&mut self.shelf, &mut self.core, vol, start, bytes);
        }
        write_marked(&mut self.shelf, &mut self.core, vol, start, bytes, marks)
    }

    /// Reads 1 to 16 blocks: the content after all logged writes. It changes nothing.
    ///
    /// Refusals, in this order: 20 where a call answered 7 before, 3 where the blocks end past the volume, 7 where the device call
    /// failed, 6 where the shelf is down.
    pub fn read(&mut self, vol: u32, start: u64, into: &mut [u8]) -> Result<(), No>
        requires volume { vol < length self.old.core.units.vols }
        requires blocks { IsBlocks into.old }
        ensures answers { ReadIs (read_refusal self.old.core ((S.meaning self.old.shelf).size (unit_of self.old.core.units.vols vol)) start (blocks_in into.old))
            (S.meaning self.old.shelf) (S.meaning self.new.shelf) result }
        ensures gives { OnOk result ((h : Holding) → Stands self.old.core h (S.meaning self.old.shelf) → IsTrue (S.meaning self.old.shelf).tells
            → ShowsContent h.content vol start (blocks_in into.old) into.new) }
        ensures unchanged { IsSome (read_refusal self.old.core ((S.meaning self.old.shelf).size (unit_of self.old.core.units.vols vol)) start (blocks_in into.old))
            → self.new.shelf ≡ self.old.shelf }
        ensures stands { (h : Holding) → Stands self.old.core h (S.meaning self.old.shelf) → IsFalse (S.meaning self.new.shelf).down → Stands self.new.core h (S.meaning self.new.shelf) }
        ensures core { self.new.core ≡ self.old.core }
        ensures goes { Goes Nothing (S.meaning self.old.shelf) (S.meaning self.new.shelf) }
        ensures down { (S.meaning self.new.shelf).down ≡ (S.meaning self.old.shelf).down }
        ensures disks { OnDisks (S.meaning self.old.shelf).disks (S.meaning self.new.shelf).disks Untouched }
        ensures spends { Spends (S.meaning self.old.shelf) (S.meaning self.new.shelf) }
        ensures works { OnOk result (Works (S.meaning self.old.shelf).disks (unit_of self.old.core.units.vols vol)) }
    {
        read_blocks(&mut self.shelf, &self.core, vol, start, into)
    }

    /// How many data volumes it has, at most 30.
    pub fn volumes(&self) -> u32
        ensures { result ≡ length self.now.core.units.vols }
    {
        self.core.volumes()
    }

    /// The blocks of a data volume.
    pub fn size(&self, vol: u32) -> u64
        requires volume { vol < length self.now.core.units.vols }
        ensures { result ≡ (S.meaning self.now.shelf).size (unit_of self.now.core.units.vols vol) }
    {
        self.shelf.size(self.core.unit(vol))
    }

    /// The blocks of its log that hold records. Numbers are above 0, and none is greater than `MOST_NUMBER`. Each run of the log began with a
    /// header, so there are no more than its stamp.
    pub fn ring(&self) -> u64
        ensures is { result ≡ self.now.core.log.ring }
        ensures low { 0 < self.now.core.log.header.low }
        ensures run { self.now.core.log.header.run ≤ self.now.core.log.header.stamp }
        ensures head { last_of self.now.core ≤ MOST_NUMBER }
    {
        // For its bound.
        let _low = self.core.srl.low();
        self.core.srl.ring()
    }

    /// The disk that halted it: a call on it failed.
    pub fn halted(&self) -> Option<u32>
        ensures { result ≡ self.now.core.halted }
    {
        self.core.halted
    }

    /// The number of the last write that was answered.
    pub fn head(&self) -> u64
        ensures { result ≡ last_of self.now.core }
    {
        self.core.srl.head()
    }

    /// The lowest number that its log holds, or would hold.
    pub fn low(&self) -> u64
        ensures { result ≡ self.now.core.log.header.low }
    {
        self.core.srl.low()
    }

    /// The number up to which the writes are in the volumes.
    pub fn applied(&self) -> u64
        ensures { result ≡ self.now.core.applied }
    {
        self.core.applied
    }

    /// The blocks of the log that no record takes.
    pub fn free(&self) -> u64
        ensures is { result ≡ free_of self.now.core.log }
        ensures holds { (h : Holding) → Stands self.now.core h (S.meaning self.now.shelf) → result ≡ self.now.core.log.ring - blocks_taken h.writes }
    {
        self.core.srl.free()
    }

    /// The blocks that the numbers above one take in the log.
    pub fn used(&self, above: u64) -> u64
        requires low { self.now.core.log.header.low ≤ above + 1 }
        requires known { above < next_of self.now.core.log }
        ensures is { result ≡ blocks_above self.now.core.log above }
        ensures holds { (h : Holding) → Stands self.now.core h (S.meaning self.now.shelf) → result ≡ blocks_taken (drop (above + 1 - h.low) h.writes) }
    {
        self.core.srl.used(above)
    }

    /// How often its log was started, its making counted.
    pub fn session(&self) -> u64
        ensures is { result ≡ self.now.core.log.header.incarnation }
        ensures few { result ≤ MOST_NUMBER }
    {
        self.core.srl.session()
    }

    /// Whether its log can take so many more headers and writes: a stamp and a number are left for each.
    pub fn has_numbers(&self, count: u64) -> bool
        ensures { result ≡ has_numbers self.now.core count }
    {
        // For its bound.
        let _low = self.core.srl.low();
        let head = self.core.srl.head();
        self.core.srl.has_stamps(count) && head <= MOST_NUMBER - count
    }

    /// What its log keeps of the site.
    pub fn state(&self) -> &State
        ensures is { result.now ≡ self.now.core.log.header.state }
        ensures spelled { CanSpellState result.now }
    {
        self.core.srl.state()
    }

    /// The shelf, and the rest.
    pub fn apart(self) -> (S, RvgCore)
        ensures shelf { result.0 ≡ self.shelf }
        ensures core { result.1 ≡ self.core }
        ensures sound { IsSound self.core (S.meaning self.shelf) }
    {
        let Rvg { shelf, core } = self;
        (shelf, core)
    }

    /// A group over a shelf on which it left its log and volumes.
    pub fn together(shelf: S, core: RvgCore) -> Rvg<S>
        requires { IsSound core (S.meaning shelf) }
        ensures shelf { result.shelf ≡ shelf }
        ensures core { result.core ≡ core }
    {
        Rvg { shelf, core }
    }

    /// The shelf alone.
    pub fn into_shelf(self) -> S
        ensures { result ≡ self.shelf }
    {
        self.shelf
    }
}

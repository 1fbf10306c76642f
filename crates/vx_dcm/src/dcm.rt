// The change maps of a group.
ghost use Rattle.std.specs.Prelude.{◌≡◌, ◌+◌, ◌-◌, ◌*◌, ◌^◌, ◌<◌, ◌≤◌, IfErr, IfOk, IsFalse, IsTrue, OnOk, length, true};
ghost use Rattle.vx_bitmap.specs.Bits.{AllAre, Between, Changed, is_marked};
ghost use Rattle.vx_bitmap.specs.Maps.{ChangedAt, Changing, IsRead, Lies, LoadCause, MapOn, SamePlace, UnitCause, map_block_count, regions_mapped};
ghost use Rattle.vx_disk.specs.Causes.{BlamesUnit, DeviceCause};
ghost use Rattle.vx_disk.specs.Maps.{maps_of};
ghost use Rattle.vx_disk.specs.Moves.{Moves, Run, Settled};
ghost use Rattle.vx_disk.specs.Shelf.{Goes, Nothing};
ghost use Rattle.vx_disk.specs.Spends.{Spends};
ghost use Rattle.vx_dcm.specs.Counts.{left_in as left_in_is, marks_left};
ghost use Rattle.vx_dcm.specs.Places.{AllOfSlot, AllPlaced, DcmLoaded, HasMap, HasRegion, IsPlaceAmong, IsOfRun, IsOfSlots, IsPlaceOfSlots, MapChanging, MapsBetween, MapsFit, OtherMapsSame, SlotsMarked, SomeChanged, has_mark, region_place, mapped_size, slot_first, slot_last};
ghost use Rattle.vx_model.specs.Sizes.{map_blocks as map_blocks_is, regions_of};
ghost use Rattle.vx_model.specs.declared.limits.TheConstants.{LINK_PLACES, MAP_REGIONS};

use crate::counting::count_run;
use crate::room::{DcmRoom, room_blocks};
use crate::sizes::{maps_to, sizes_of};
use arrayvec::ArrayVec;
use std::alloc::Global;
use std::marker::Model;
use vx_bitmap::{Bitmap, has_bit};
use vx_disk::Shelf;
use vx_model::limits::{LINK_PLACES, MAP_REGIONS, MOST_DATA_VOLUMES, REGION};
use vx_model::{No, Stop, Units};

/// The change maps of a group, in memory and in the first blocks of its map unit.
#[derive(Drop)]
pub struct Dcm {
    map: Bitmap,
    sizes: ArrayVec<u64, MOST_DATA_VOLUMES>,
    stride: u64,
}

impl Model for Dcm {
    ghost use Rattle.vx_dcm.specs.Places.{AreMapsKept, Maps};

    ghost Value = { Maps };

    ghost view = { λ d. record { map = d.map; sizes = d.sizes.items } };

    ghost invariant = { λ d. AreMapsKept d.map d.sizes.items d.stride };
}

impl Dcm {
    /// Reads the change maps of a group of these units. It changes nothing. Where a crash leaves one value at most in each block of the maps,
    /// they stand.
    ///
    /// It takes the memory of the maps' blocks; for more than 65,536 blocks there is none. Refusal 7, where the device call failed.
    pub fn load<S: Shelf>(alloc: Global, shelf: &mut S, units: &Units) -> Result<Dcm, Stop>
        requires fit { MapsFit units.now (S.meaning shelf.old) }
        requires up { IsFalse (S.meaning shelf.old).down }
        ensures loaded { IfOk result (λ dcm. DcmLoaded units.now (S.meaning shelf.old) dcm) }
        ensures lies { IfOk result (λ dcm. Lies dcm.map (S.meaning shelf.new)) }
        ensures read { IfOk result (λ dcm. IsRead dcm.map (S.meaning shelf.old)) }
        ensures stands { IfOk result (λ dcm. Settled (S.meaning shelf.old) (Run dcm.map.unit dcm.map.first (map_block_count dcm.map)) → MapOn dcm.map (S.meaning shelf.new)) }
        ensures goes { Goes Nothing (S.meaning shelf.old) (S.meaning shelf.new) }
        ensures cause { IfErr result (LoadCause (S.meaning shelf.old) (S.meaning shelf.new)) }
    {
        let Ok(room) = DcmRoom::new(alloc, room_blocks(units, shelf)) else {
            return Err(Stop::OutOfMemory);
        };
        match Dcm::load_in(room, shelf, units) {
            Ok(dcm) => Ok(dcm),
            Err(no) => Err(Stop::No(no)),
        }
    }

    /// The same with memory that was taken before, for as many blocks or more.
    pub fn load_in<S: Shelf>(room: DcmRoom, shelf: &mut S, units: &Units) -> Result<Dcm, No>
        requires fit { MapsFit units.now (S.meaning shelf.old) }
        requires up { IsFalse (S.meaning shelf.old).down }
        requires room { LINK_PLACES * maps_of units.now.vols (S.meaning shelf.old) ≤ room.blocks }
        ensures loaded { IfOk result (λ dcm. DcmLoaded units.now (S.meaning shelf.old) dcm) }
        ensures lies { IfOk result (λ dcm. Lies dcm.map (S.meaning shelf.new)) }
        ensures read { IfOk result (λ dcm. IsRead dcm.map (S.meaning shelf.old)) }
        ensures stands { IfOk result (λ dcm. Settled (S.meaning shelf.old) (Run dcm.map.unit dcm.map.first (map_block_count dcm.map)) → MapOn dcm.map (S.meaning shelf.new)) }
        ensures goes { Goes Nothing (S.meaning shelf.old) (S.meaning shelf.new) }
        ensures up { (S.meaning shelf.new).down ≡ (S.meaning shelf.old).down }
        ensures spends { Spends (S.meaning shelf.old) (S.meaning shelf.new) }
        ensures cause { IfErr result (DeviceCause (S.meaning shelf.old) (S.meaning shelf.new)) }
    {
        let sizes = sizes_of(shelf, units.vols.as_slice());
        let stride = maps_to(&sizes, sizes.len());
        let bytes = room.cut_to(LINK_PLACES as u64 * stride);
        match Bitmap::load_in(bytes, shelf, units.maps, 0) {
            Ok(map) => Ok(Dcm { map, sizes, stride }),
            Err(no) => Err(no),
        }
    }

    /// Whether there is such a place of a link and volume, and the volume has such a region.
    pub fn has_region(&self, slot: u32, vol: u32, region: u64) -> bool
        ensures is { result ≡ true → HasRegion self.now slot vol region }
        ensures only { HasRegion self.now slot vol region → result ≡ true }
    {
        (slot as usize) < LINK_PLACES
            && (vol as usize) < self.sizes.len()
            && region < self.sizes[vol as usize].div_ceil(REGION)
    }

    /// Whether there is such a place of a link and volume.
    pub(crate) fn has_map(&self, slot: u32, vol: u32) -> bool
        ensures is { result ≡ true → HasMap self.now slot vol }
        ensures only { HasMap self.now slot vol → result ≡ true }
    {
        (slot as usize) < LINK_PLACES && (vol as usize) < self.sizes.len()
    }

    /// How many regions a volume has.
    pub(crate) fn regions(&self, vol: u32) -> u64
        requires exists { vol < length self.now.sizes }
        ensures is { result ≡ regions_of (mapped_size self.now vol) }
        ensures few { result < 2 ^ 63 }
    {
        self.sizes[vol as usize].div_ceil(REGION)
    }

    // The place of the first region of a map among those of all maps.
    fn base(&self, slot: u32, vol: u32) -> u64
        requires exists { HasMap self.now slot vol }
        ensures is { result ≡ region_place self.now slot vol 0 }
        ensures within { result + MAP_REGIONS * map_blocks_is (mapped_size self.now vol) ≤ regions_mapped self.now.map }
        ensures few { regions_mapped self.now.map ≤ 268435456 }
    {
        MAP_REGIONS * (u64::from(slot) * self.stride + maps_to(&self.sizes, vol as usize))
    }

    // The place of a region among those of all maps.
    fn place(&self, slot: u32, vol: u32, region: u64) -> u64
        requires exists { HasRegion self.now slot vol region }
        ensures is { result ≡ region_place self.now slot vol region }
        ensures within { result < regions_mapped self.now.map }
    {
        self.base(slot, vol) + region
    }

    // Changes the regions of a run of places among those of all maps, durably.
    fn change<S: Shelf>(&mut self, shelf: &mut S, start: u64, end: u64, on: bool) -> Result<(), No>
        requires lies { Lies self.old.map (S.meaning shelf.old) }
        requires some { start ≤ end }
        requires inside { end < regions_mapped self.old.map }
        ensures moves { Moves (Run self.old.map.unit self.old.map.first (map_block_count self.old.map)) (Changing self.old.map start end on (S.meaning shelf.old)) (S.meaning shelf.old) (S.meaning shelf.new) }
        ensures writes { Goes (ChangedAt self.old.map start end on (S.meaning shelf.old)) (S.meaning shelf.old) (S.meaning shelf.new) }
        ensures stands { OnOk result (MapOn self.old.map (S.meaning shelf.old) → MapOn self.new.map (S.meaning shelf.new)) }
        ensures changed { OnOk result (Changed start end on (regions_mapped self.old.map) (is_marked self.old.map.bytes) (is_marked self.new.map.bytes)) }
        ensures part { Between start end on (regions_mapped self.old.map) (is_marked self.old.map.bytes) (is_marked self.new.map.bytes) }
        ensures placed { AllPlaced self.old }
        ensures place { SamePlace self.old.map self.new.map }
        ensures sizes { self.new.sizes ≡ self.old.sizes }
        ensures cause { IfErr result (DeviceCause (S.meaning shelf.old) (S.meaning shelf.new)) }
        ensures unit { UnitCause self.old.map.unit (S.meaning shelf.old) (S.meaning shelf.new) result }
        ensures nothing { AllAre start end on (is_marked self.old.map.bytes) → shelf.new ≡ shelf.old }
        ensures spends { Spends (S.meaning shelf.old) (S.meaning shelf.new) }
        ensures blames { IfErr result (BlamesUnit (S.meaning shelf.old).disks self.old.map.unit) }
    {
        if on {
            self.map.set_run(shelf, start, end)
        } else {
            self.map.clear_run(shelf, start, end)
        }
    }

    /// Marks the regions of a volume from `first` to `last`, both included, in the map of a place of a link, or takes their marks off,
    /// durably. It makes no device call where all of them are so already. Each other region of each map is as it was.
    ///
    /// Refusals: 7 where a device call failed, 6 where the shelf is down. Behind them each of the regions is as it was or changed.
    pub fn mark_run<S: Shelf>(
        &mut self,
        shelf: &mut S,
        slot: u32,
        vol: u32,
        first: u64,
        last: u64,
        on: bool,
    ) -> Result<(), No>
        requires lies { Lies self.old.map (S.meaning shelf.old) }
        requires some { first ≤ last }
        requires exists { HasRegion self.old slot vol last }
        ensures moves { Moves (Run self.old.map.unit self.old.map.first (map_block_count self.old.map)) (MapChanging self.old.map (IsPlaceAmong (region_place self.old slot vol first) (region_place self.old slot vol last)) on (S.meaning shelf.old)) (S.meaning shelf.old) (S.meaning shelf.new) }
        ensures writes { Goes (ChangedAt self.old.map (region_place self.old slot vol first) (region_place self.old slot vol last) on (S.meaning shelf.old)) (S.meaning shelf.old) (S.meaning shelf.new) }
        ensures bits { SomeChanged (IsPlaceAmong (region_place self.old slot vol first) (region_place self.old slot vol last)) on (regions_mapped self.old.map) (is_marked self.old.map.bytes) (is_marked self.new.map.bytes) }
        ensures stands { OnOk result (MapOn self.old.map (S.meaning shelf.old) → MapOn self.new.map (S.meaning shelf.new)) }
        ensures marked { OnOk result (AllAre first last on (has_mark self.new slot vol)) }
        ensures part { MapsBetween (IsOfRun slot vol first last) on self.old self.new }
        ensures place { SamePlace self.old.map self.new.map }
        ensures sizes { self.new.sizes ≡ self.old.sizes }
        ensures cause { IfErr result (DeviceCause (S.meaning shelf.old) (S.meaning shelf.new)) }
        ensures unit { UnitCause self.old.map.unit (S.meaning shelf.old) (S.meaning shelf.new) result }
        ensures nothing { AllAre first last on (has_mark self.old slot vol) → shelf.new ≡ shelf.old }
        ensures spends { Spends (S.meaning shelf.old) (S.meaning shelf.new) }
        ensures blames { IfErr result (BlamesUnit (S.meaning shelf.old).disks self.old.map.unit) }
    {
        let start = self.place(slot, vol, first);
        let end = self.place(slot, vol, last);
        self.change(shelf, start, end, on)
    }

    /// Marks a region of a volume in the map of a place of a link, or takes its mark off, durably. It makes no device call where the region
    /// is so already. Each other region of each map is as it was.
    ///
    /// Refusals: 7 where a device call failed, 6 where the shelf is down. Behind them the region is as it was or changed.
    pub fn mark<S: Shelf>(
        &mut self,
        shelf: &mut S,
        slot: u32,
        vol: u32,
        region: u64,
        on: bool,
    ) -> Result<(), No>
        requires lies { Lies self.old.map (S.meaning shelf.old) }
        requires exists { HasRegion self.old slot vol region }
        ensures moves { Moves (Run self.old.map.unit self.old.map.first (map_block_count self.old.map)) (MapChanging self.old.map (IsPlaceAmong (region_place self.old slot vol region) (region_place self.old slot vol region)) on (S.meaning shelf.old)) (S.meaning shelf.old) (S.meaning shelf.new) }
        ensures writes { Goes (ChangedAt self.old.map (region_place self.old slot vol region) (region_place self.old slot vol region) on (S.meaning shelf.old)) (S.meaning shelf.old) (S.meaning shelf.new) }
        ensures stands { OnOk result (MapOn self.old.map (S.meaning shelf.old) → MapOn self.new.map (S.meaning shelf.new)) }
        ensures marked { OnOk result (has_mark self.new slot vol region ≡ on) }
        ensures stays { has_mark self.old slot vol region ≡ on → has_mark self.new slot vol region ≡ on }
        ensures others { OtherMapsSame slot vol region self.old self.new }
        ensures place { SamePlace self.old.map self.new.map }
        ensures sizes { self.new.sizes ≡ self.old.sizes }
        ensures cause { IfErr result (DeviceCause (S.meaning shelf.old) (S.meaning shelf.new)) }
        ensures unit { UnitCause self.old.map.unit (S.meaning shelf.old) (S.meaning shelf.new) result }
        ensures nothing { has_mark self.old slot vol region ≡ on → shelf.new ≡ shelf.old }
        ensures spends { Spends (S.meaning shelf.old) (S.meaning shelf.new) }
        ensures blames { IfErr result (BlamesUnit (S.meaning shelf.old).disks self.old.map.unit) }
    {
        self.mark_run(shelf, slot, vol, region, region, on)
    }

    /// Marks all regions of all volumes in the maps of a place of a link, or takes all marks off, durably. The maps of each other place
    /// are as they were.
    ///
    /// Refusals: 7 where a device call failed, 6 where the shelf is down. Behind them each of the regions is as it was or changed.
    pub fn mark_all<S: Shelf>(&mut self, shelf: &mut S, slot: u32, on: bool) -> Result<(), No>
        requires lies { Lies self.old.map (S.meaning shelf.old) }
        requires exists { slot < LINK_PLACES }
        ensures moves { Moves (Run self.old.map.unit self.old.map.first (map_block_count self.old.map)) (MapChanging self.old.map (IsPlaceAmong (slot_first self.old slot) (slot_last self.old slot)) on (S.meaning shelf.old)) (S.meaning shelf.old) (S.meaning shelf.new) }
        ensures writes { Goes (ChangedAt self.old.map (slot_first self.old slot) (slot_last self.old slot) on (S.meaning shelf.old)) (S.meaning shelf.old) (S.meaning shelf.new) }
        ensures stands { OnOk result (MapOn self.old.map (S.meaning shelf.old) → MapOn self.new.map (S.meaning shelf.new)) }
        ensures marked { OnOk result (AllOfSlot slot on self.new) }
        ensures part { MapsBetween (λ k w q. k ≡ slot) on self.old self.new }
        ensures place { SamePlace self.old.map self.new.map }
        ensures sizes { self.new.sizes ≡ self.old.sizes }
        ensures cause { IfErr result (DeviceCause (S.meaning shelf.old) (S.meaning shelf.new)) }
        ensures unit { UnitCause self.old.map.unit (S.meaning shelf.old) (S.meaning shelf.new) result }
        ensures spends { Spends (S.meaning shelf.old) (S.meaning shelf.new) }
        ensures blames { IfErr result (BlamesUnit (S.meaning shelf.old).disks self.old.map.unit) }
    {
        let stride = self.stride;
        if stride == 0 {
            return Ok(());
        }
        let start = MAP_REGIONS * (u64::from(slot) * stride);
        self.change(shelf, start, start + (MAP_REGIONS * stride - 1), on)
    }

    /// Marks the regions of a volume from `first` to `last`, both included, in the map of each place of a link that `marks` names, place k
    /// by bit k, durably. It makes no device call where all of them are marked. Each other region of each map is as it was.
    ///
    /// Refusals: 7 where a device call failed, 6 where the shelf is down. Behind them each of the regions is as it was or marked.
    pub fn mark_slots<S: Shelf>(
        &mut self,
        shelf: &mut S,
        marks: u8,
        vol: u32,
        first: u64,
        last: u64,
    ) -> Result<(), No>
        requires lies { Lies self.old.map (S.meaning shelf.old) }
        requires some { first ≤ last }
        requires exists { HasRegion self.old 0 vol last }
        ensures moves { Moves (Run self.old.map.unit self.old.map.first (map_block_count self.old.map)) (MapChanging self.old.map (IsPlaceOfSlots self.old marks vol first last) true (S.meaning shelf.old)) (S.meaning shelf.old) (S.meaning shelf.new) }
        ensures bits { SomeChanged (IsPlaceOfSlots self.old marks vol first last) true (regions_mapped self.old.map) (is_marked self.old.map.bytes) (is_marked self.new.map.bytes) }
        ensures stands { OnOk result (MapOn self.old.map (S.meaning shelf.old) → MapOn self.new.map (S.meaning shelf.new)) }
        ensures marked { OnOk result (SlotsMarked marks vol first last self.new) }
        ensures part { MapsBetween (IsOfSlots marks vol first last) true self.old self.new }
        ensures place { SamePlace self.old.map self.new.map }
        ensures sizes { self.new.sizes ≡ self.old.sizes }
        ensures cause { IfErr result (DeviceCause (S.meaning shelf.old) (S.meaning shelf.new)) }
        ensures up { OnOk result (IsTrue (S.meaning shelf.new).down → IsTrue (S.meaning shelf.old).down) }
        ensures nothing { SlotsMarked marks vol first last self.old → shelf.new ≡ shelf.old }
        ensures spends { Spends (S.meaning shelf.old) (S.meaning shelf.new) }
        ensures blames { IfErr result (BlamesUnit (S.meaning shelf.old).disks self.old.map.unit) }
    {
        for slot in 0..LINK_PLACES as u32 {
            if has_bit(marks, slot) {
                if let Err(no) = self.mark_run(shelf, slot, vol, first, last, true) {
                    return Err(no);
                }
            }
        }
        Ok(())
    }

    /// Whether a region of a volume is marked in the map of a place of a link.
    pub fn marked(&self, slot: u32, vol: u32, region: u64) -> bool
        requires exists { HasRegion self.now slot vol region }
        ensures { result ≡ has_mark self.now slot vol region }
    {
        self.map.test(self.place(slot, vol, region))
    }

    // How many regions of a volume are marked in the map of a place of a link.
    fn left_in(&self, slot: u32, vol: u32) -> u32
        requires exists { HasMap self.now slot vol }
        ensures { result ≡ left_in_is self.now slot vol }
    {
        let regions = self.sizes[vol as usize].div_ceil(REGION);
        count_run(&self.map, self.base(slot, vol), regions)
    }

    /// How many regions of all volumes are marked in the maps of a place of a link.
    pub fn left(&self, slot: u32) -> u32
        requires exists { slot < LINK_PLACES }
        ensures { result ≡ marks_left self.now slot }
    {
        let mut total = 0;
        for vol in 0..self.sizes.len() as u32 {
            total += self.left_in(slot, vol);
        }
        total
    }
}

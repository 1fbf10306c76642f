// The marks of regions in the change maps.
ghost use Rattle.std.specs.Prelude.{◌≡◌, ◌<◌, ◌≤◌, None, true, IfErr, IsFalse, IsSome, OnOk};
ghost use Rattle.vx_bitmap.specs.Bits.{AllAre, is_marked};
ghost use Rattle.vx_bitmap.specs.Maps.{SamePlace, regions_mapped};
ghost use Rattle.vx_dcm.specs.Counts.{marks_left};
ghost use Rattle.vx_dcm.specs.Places.{AllOfSlot, HasRegion, IsPlaceAmong, IsOfRun, IsOfSlots, IsPlaceOfSlots, MapsBetween, OtherMapsSame, SlotsMarked, SomeChanged, has_mark, region_place, slot_first, slot_last};
ghost use Rattle.vx_disk.specs.Causes.{BlamesUnit};
ghost use Rattle.vx_disk.specs.Moves.{Moves};
ghost use Rattle.vx_disk.specs.Spends.{Spends};
ghost use Rattle.vx_model.specs.declared.limits.TheConstants.{LINK_PLACES};
ghost use Rattle.vx_rvg.specs.Groups.{halted_or};
ghost use Rattle.vx_rvg.specs.Marks.{MarkIs, Marking, Marks, Remarks, map_run};
ghost use Rattle.vx_rvg.specs.StagedMarks.{StagedMarking, StagedRemarks};
ghost use Rattle.vx_rvg.specs.Views.{IsSound, IsSoundWith};

use crate::{Rvg, RvgCore};
use vx_disk::Shelf;
use vx_model::No;

/// Changes the marks of a run of regions, durably. A device call that fails halts the group.
pub(crate) fn mark_regions<S: Shelf>(
    shelf: &mut S,
    core: &mut RvgCore,
    slot: u32,
    vol: u32,
    first: u64,
    last: u64,
    on: bool,
) -> Result<(), No>
    requires sound { IsSound core.old (S.meaning shelf.old) }
    requires up { IsFalse (S.meaning shelf.old).down }
    requires some { first ≤ last }
    requires exists { HasRegion core.old.maps slot vol last }
    ensures marks { Marks core.old (S.meaning shelf.old) (S.meaning shelf.new) core.new result }
    ensures marked { OnOk result (AllAre first last on (has_mark core.new.maps slot vol)) }
    ensures part { MapsBetween (IsOfRun slot vol first last) on core.old.maps core.new.maps }
    ensures bits { SomeChanged (IsPlaceAmong (region_place core.old.maps slot vol first) (region_place core.old.maps slot vol last)) on (regions_mapped core.old.maps.map) (is_marked core.old.maps.map.bytes) (is_marked core.new.maps.map.bytes) }
    ensures place { SamePlace core.old.maps.map core.new.maps.map }
    ensures sizes { core.new.maps.sizes ≡ core.old.maps.sizes }
    ensures nothing { AllAre first last on (has_mark core.old.maps slot vol) → shelf.new ≡ shelf.old }
    ensures sound { IsSound core.new (S.meaning shelf.new) }
    ensures stands { OnOk result (Remarks core.old core.new (S.meaning shelf.old) (S.meaning shelf.new)) }
    ensures moves { Moves (map_run core.old) (Marking core.old (IsPlaceAmong (region_place core.old.maps slot vol first) (region_place core.old.maps slot vol last)) on (S.meaning shelf.old)) (S.meaning shelf.old) (S.meaning shelf.new) }
    ensures spends { Spends (S.meaning shelf.old) (S.meaning shelf.new) }
    ensures blames { IfErr result (BlamesUnit (S.meaning shelf.old).disks core.old.units.maps) }
{
    match core.maps.mark_run(shelf, slot, vol, first, last, on) {
        Ok(()) => Ok(()),
        Err(no) => {
            core.halt(&no);
            Err(no)
        }
    }
}

// Changes all marks of a place of a link, durably. A device call that fails halts the group.
fn mark_slot<S: Shelf>(shelf: &mut S, core: &mut RvgCore, slot: u32, on: bool) -> Result<(), No>
    requires sound { IsSound core.old (S.meaning shelf.old) }
    requires up { IsFalse (S.meaning shelf.old).down }
    requires exists { slot < LINK_PLACES }
    ensures marks { Marks core.old (S.meaning shelf.old) (S.meaning shelf.new) core.new result }
    ensures marked { OnOk result (AllOfSlot slot on core.new.maps) }
    ensures part { MapsBetween (λ k w q. k ≡ slot) on core.old.maps core.new.maps }
    ensures sound { IsSound core.new (S.meaning shelf.new) }
    ensures stands { OnOk result (Remarks core.old core.new (S.meaning shelf.old) (S.meaning shelf.new)) }
    ensures moves { Moves (map_run core.old) (Marking core.old (IsPlaceAmong (slot_first core.old.maps slot) (slot_last core.old.maps slot)) on (S.meaning shelf.old)) (S.meaning shelf.old) (S.meaning shelf.new) }
    ensures spends { Spends (S.meaning shelf.old) (S.meaning shelf.new) }
    ensures blames { IfErr result (BlamesUnit (S.meaning shelf.old).disks core.old.units.maps) }
{
    match core.maps.mark_all(shelf, slot, on) {
        Ok(()) => Ok(()),
        Err(no) => {
            core.halt(&no);
            Err(no)
        }
    }
}

/// Marks a run of regions in the map of each place of a link that is named, durably, whatever is staged. A device call that
/// fails halts the group.
pub(crate) fn mark_named<S: Shelf>(
    shelf: &mut S,
    core: &mut RvgCore,
    marks: u8,
    vol: u32,
    first: u64,
    last: u64,
) -> Result<(), No>
    requires sound { IsSoundWith core.old.log.staged core.old (S.meaning shelf.old) }
    requires up { IsFalse (S.meaning shelf.old).down }
    requires some { first ≤ last }
    requires exists { HasRegion core.old.maps 0 vol last }
    ensures marks { Marks core.old (S.meaning shelf.old) (S.meaning shelf.new) core.new result }
    ensures marked { OnOk result (SlotsMarked marks vol first last core.new.maps) }
    ensures part { MapsBetween (IsOfSlots marks vol first last) true core.old.maps core.new.maps }
    ensures bits { SomeChanged (IsPlaceOfSlots core.old.maps marks vol first last) true (regions_mapped core.old.maps.map) (is_marked core.old.maps.map.bytes) (is_marked core.new.maps.map.bytes) }
    ensures place { SamePlace core.old.maps.map core.new.maps.map }
    ensures sizes { core.new.maps.sizes ≡ core.old.maps.sizes }
    ensures nothing { SlotsMarked marks vol first last core.old.maps → shelf.new ≡ shelf.old }
    ensures sound { IsSoundWith core.new.log.staged core.new (S.meaning shelf.new) }
    ensures stands { OnOk result (StagedRemarks core.old core.new (S.meaning shelf.old) (S.meaning shelf.new)) }
    ensures moves { Moves (map_run core.old) (StagedMarking core.old (IsPlaceOfSlots core.old.maps marks vol first last) true (S.meaning shelf.old)) (S.meaning shelf.old) (S.meaning shelf.new) }
    ensures spends { Spends (S.meaning shelf.old) (S.meaning shelf.new) }
    ensures blames { IfErr result (BlamesUnit (S.meaning shelf.old).disks core.old.units.maps) }
{
    match core.maps.mark_slots(shelf, marks, vol, first, last) {
        Ok(()) => Ok(()),
        Err(no) => {
            core.halt(&no);
            Err(no)
        }
    }
}

// Changes the mark of one region, where no call answered 7 before and the shelf is up.
fn mark_one<S: Shelf>(
    shelf: &mut S,
    core: &mut RvgCore,
    slot: u32,
    vol: u32,
    region: u64,
    on: bool,
) -> Result<(), No>
    requires sound { IsSound core.old (S.meaning shelf.old) }
    requires exists { HasRegion core.old.maps slot vol region }
    ensures answers { MarkIs (halted_or core.old.halted None) core.old (S.meaning shelf.old) (S.meaning shelf.new) core.new result }
    ensures unchanged { IsSome (halted_or core.old.halted None) → shelf.new ≡ shelf.old }
    ensures marked { OnOk result (has_mark core.new.maps slot vol region ≡ on) }
    ensures others { OtherMapsSame slot vol region core.old.maps core.new.maps }
    ensures nothing { has_mark core.old.maps slot vol region ≡ on → shelf.new ≡ shelf.old }
    ensures sound { IsSound core.new (S.meaning shelf.new) }
    ensures stands { OnOk result (Remarks core.old core.new (S.meaning shelf.old) (S.meaning shelf.new)) }
    ensures moves { Moves (map_run core.old) (Marking core.old (IsPlaceAmong (region_place core.old.maps slot vol region) (region_place core.old.maps slot vol region)) on (S.meaning shelf.old)) (S.meaning shelf.old) (S.meaning shelf.new) }
    ensures spends { Spends (S.meaning shelf.old) (S.meaning shelf.new) }
    ensures blames { IfErr result (BlamesUnit (S.meaning shelf.old).disks core.old.units.maps) }
{
    if let Some(disk) = core.halted {
        return Err(No::Halted { disk });
    }
    if shelf.is_down() {
        return Err(No::Down);
    }
    mark_regions(shelf, core, slot, vol, region, region, on)
}

// Changes all marks of a place of a link, where no call answered 7 before and the shelf is up.
fn mark_every<S: Shelf>(shelf: &mut S, core: &mut RvgCore, slot: u32, on: bool) -> Result<(), No>
    requires sound { IsSound core.old (S.meaning shelf.old) }
    requires exists { slot < LINK_PLACES }
    ensures answers { MarkIs (halted_or core.old.halted None) core.old (S.meaning shelf.old) (S.meaning shelf.new) core.new result }
    ensures unchanged { IsSome (halted_or core.old.halted None) → shelf.new ≡ shelf.old }
    ensures marked { OnOk result (AllOfSlot slot on core.new.maps) }
    ensures part { MapsBetween (λ k w q. k ≡ slot) on core.old.maps core.new.maps }
    ensures sound { IsSound core.new (S.meaning shelf.new) }
    ensures stands { OnOk result (Remarks core.old core.new (S.meaning shelf.old) (S.meaning shelf.new)) }
    ensures moves { Moves (map_run core.old) (Marking core.old (IsPlaceAmong (slot_first core.old.maps slot) (slot_last core.old.maps slot)) on (S.meaning shelf.old)) (S.meaning shelf.old) (S.meaning shelf.new) }
    ensures spends { Spends (S.meaning shelf.old) (S.meaning shelf.new) }
    ensures blames { IfErr result (BlamesUnit (S.meaning shelf.old).disks core.old.units.maps) }
{
    if let Some(disk) = core.halted {
        return Err(No::Halted { disk });
    }
    if shelf.is_down() {
        return Err(No::Down);
    }
    mark_slot(shelf, core, slot, on)
}

impl<S: Shelf> Rvg<S> {
    /// Marks a region of a volume in the map of a place of a link, or takes its mark off, durably. It makes no device call where the region
    /// is so already. Each other region of each map is as it was.
    ///
    /// Refusals: 20 where a call answered 7 before, which changes nothing; 7 where a device call failed: then the group is halted; 6 where
    /// the shelf is down. Behind 7 and 6 the region is as it was or changed.
    pub fn mark(&mut self, slot: u32, vol: u32, region: u64, on: bool) -> Result<(), No>
        requires exists { HasRegion self.old.core.maps slot vol region }
        ensures answers { MarkIs (halted_or self.old.core.halted None) self.old.core (S.meaning self.old.shelf) (S.meaning self.new.shelf) self.new.core result }
        ensures unchanged { IsSome (halted_or self.old.core.halted None) → self.new.shelf ≡ self.old.shelf }
        ensures marked { OnOk result (has_mark self.new.core.maps slot vol region ≡ on) }
        ensures others { OtherMapsSame slot vol region self.old.core.maps self.new.core.maps }
        ensures nothing { has_mark self.old.core.maps slot vol region ≡ on → self.new.shelf ≡ self.old.shelf }
        ensures stands { OnOk result (Remarks self.old.core self.new.core (S.meaning self.old.shelf) (S.meaning self.new.shelf)) }
        ensures moves { Moves (map_run self.old.core) (Marking self.old.core (IsPlaceAmong (region_place self.old.core.maps slot vol region) (region_place self.old.core.maps slot vol region)) on (S.meaning self.old.shelf)) (S.meaning self.old.shelf) (S.meaning self.new.shelf) }
        ensures spends { Spends (S.meaning self.old.shelf) (S.meaning self.new.shelf) }
        ensures blames { IfErr result (BlamesUnit (S.meaning self.old.shelf).disks self.old.core.units.maps) }
    {
        mark_one(&mut self.shelf, &mut self.core, slot, vol, region, on)
    }

    /// Marks all regions of all volumes in the maps of a place of a link, or takes all marks off, durably. The maps of each other place
    /// are as they were.
    ///
    /// Refusals: 20 where a call answered 7 before, which changes nothing; 7 where a device call failed: then the group is halted; 6 where
    /// the shelf is down. Behind 7 and 6 each of the regions is as it was or changed.
    pub fn mark_all(&mut self, slot: u32, on: bool) -> Result<(), No>
        requires exists { slot < LINK_PLACES }
        ensures answers { MarkIs (halted_or self.old.core.halted None) self.old.core (S.meaning self.old.shelf) (S.meaning self.new.shelf) self.new.core result }
        ensures unchanged { IsSome (halted_or self.old.core.halted None) → self.new.shelf ≡ self.old.shelf }
        ensures marked { OnOk result (AllOfSlot slot on self.new.core.maps) }
        ensures part { MapsBetween (λ k w q. k ≡ slot) on self.old.core.maps self.new.core.maps }
        ensures stands { OnOk result (Remarks self.old.core self.new.core (S.meaning self.old.shelf) (S.meaning self.new.shelf)) }
        ensures moves { Moves (map_run self.old.core) (Marking self.old.core (IsPlaceAmong (slot_first self.old.core.maps slot) (slot_last self.old.core.maps slot)) on (S.meaning self.old.shelf)) (S.meaning self.old.shelf) (S.meaning self.new.shelf) }
        ensures spends { Spends (S.meaning self.old.shelf) (S.meaning self.new.shelf) }
        ensures blames { IfErr result (BlamesUnit (S.meaning self.old.shelf).disks self.old.core.units.maps) }
    {
        mark_every(&mut self.shelf, &mut self.core, slot, on)
    }

    /// Whether there is such a place of a link and volume, and the volume has such a region.
    pub fn has_region(&self, slot: u32, vol: u32, region: u64) -> bool
        ensures is { result ≡ true → HasRegion self.now.core.maps slot vol region }
        ensures only { HasRegion self.now.core.maps slot vol region → result ≡ true }
    {
        self.core.maps.has_region(slot, vol, region)
    }

    /// Whether a region of a volume is marked in the map of a place of a link.
    pub fn marked(&self, slot: u32, vol: u32, region: u64) -> bool
        requires exists { HasRegion self.now.core.maps slot vol region }
        ensures { result ≡ has_mark self.now.core.maps slot vol region }
    {
        self.core.maps.marked(slot, vol, region)
    }

    /// How many regions of all volumes are marked in the maps of a place of a link.
    pub fn left(&self, slot: u32) -> u32
        requires exists { slot < LINK_PLACES }
        ensures { result ≡ marks_left self.now.core.maps slot }
    {
        self.core.maps.left(slot)
    }
}

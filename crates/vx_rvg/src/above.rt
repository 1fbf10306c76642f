// The marking of the regions of logged writes above a number.
ghost use Rattle.std.specs.Prelude.{◌≡◌, ◌+◌, ◌^◌, ◌<◌, ◌≤◌, None, true, IfErr, IsFalse, IsSome, OnOk};
ghost use Rattle.vx_bitmap.specs.Bits.{is_marked};
ghost use Rattle.vx_bitmap.specs.Maps.{SamePlace, regions_mapped};
ghost use Rattle.vx_dcm.specs.Places.{MapsBetween, SomeChanged};
ghost use Rattle.vx_disk.specs.Causes.{BlamesUnit};
ghost use Rattle.vx_disk.specs.Moves.{Moves};
ghost use Rattle.vx_disk.specs.Spends.{Spends};
ghost use Rattle.vx_model.specs.declared.limits.TheConstants.{LINK_PLACES};
ghost use Rattle.vx_rvg.specs.Above.{AboveMarked, IsPlaceAbove, RecordMarked};
ghost use Rattle.vx_rvg.specs.Groups.{halted_or};
ghost use Rattle.vx_rvg.specs.Marks.{MarkIs, Marking, Marks, Remarks, map_run, write_last};
ghost use Rattle.vx_rvg.specs.Views.{IsSound, last_of, volume_size};

use crate::mark::mark_regions;
use crate::{Rvg, RvgCore};
use vx_disk::Shelf;
use vx_model::No;
use vx_model::limits::REGION;

// The last region of the write of a record.
fn last_region(block: u64, count: u64) -> u64
    requires some { 0 < count }
    requires end { block + count < 2 ^ 64 }
    ensures { result ≡ write_last block count }
{
    (block + count - 1) / REGION
}

// Marks the regions of the write behind a number, where it ends within its volume.
fn mark_next<S: Shelf>(shelf: &mut S, core: &mut RvgCore, slot: u32, before: u64) -> Result<(), No>
    requires sound { IsSound core.old (S.meaning shelf.old) }
    requires up { IsFalse (S.meaning shelf.old).down }
    requires slot { slot < LINK_PLACES }
    requires low { core.old.log.header.low ≤ before + 1 }
    requires held { before < last_of core.old }
    ensures marks { Marks core.old (S.meaning shelf.old) (S.meaning shelf.new) core.new result }
    ensures marked { OnOk result (RecordMarked core.old (volume_size core.old.units.vols (S.meaning shelf.old)) slot (before + 1) core.new.maps) }
    ensures part { MapsBetween (λ k w q. k ≡ slot) true core.old.maps core.new.maps }
    ensures bits { SomeChanged (IsPlaceAbove core.old (volume_size core.old.units.vols (S.meaning shelf.old)) slot before) true (regions_mapped core.old.maps.map) (is_marked core.old.maps.map.bytes) (is_marked core.new.maps.map.bytes) }
    ensures place { SamePlace core.old.maps.map core.new.maps.map }
    ensures sizes { core.new.maps.sizes ≡ core.old.maps.sizes }
    ensures sound { IsSound core.new (S.meaning shelf.new) }
    ensures stands { OnOk result (Remarks core.old core.new (S.meaning shelf.old) (S.meaning shelf.new)) }
    ensures moves { Moves (map_run core.old) (Marking core.old (IsPlaceAbove core.old (volume_size core.old.units.vols (S.meaning shelf.old)) slot before) true (S.meaning shelf.old)) (S.meaning shelf.old) (S.meaning shelf.new) }
    ensures spends { Spends (S.meaning shelf.old) (S.meaning shelf.new) }
    ensures blames { IfErr result (BlamesUnit (S.meaning shelf.old).disks core.old.units.maps) }
{
    // A log bounds the blocks of its records by its ring.
    let _ring = core.srl.ring();
    let head = *core.srl.front(before + 1);
    if head.vol >= core.volumes() {
        return Ok(());
    }
    let size = shelf.size(core.unit(head.vol));
    let count = head.count as u64;
    if size < count || size - count < head.block {
        return Ok(());
    }
    let last = last_region(head.block, count);
    mark_regions(shelf, core, slot, head.vol, head.block / REGION, last, true)
}

// Marks the regions of the writes above a number, one after another.
fn mark_rest<S: Shelf>(shelf: &mut S, core: &mut RvgCore, slot: u32, above: u64) -> Result<(), No>
    requires sound { IsSound core.old (S.meaning shelf.old) }
    requires up { IsFalse (S.meaning shelf.old).down }
    requires slot { slot < LINK_PLACES }
    requires low { core.old.log.header.low ≤ above + 1 }
    ensures marks { Marks core.old (S.meaning shelf.old) (S.meaning shelf.new) core.new result }
    ensures marked { OnOk result (AboveMarked core.old (volume_size core.old.units.vols (S.meaning shelf.old)) slot above core.new.maps) }
    ensures part { MapsBetween (λ k w q. k ≡ slot) true core.old.maps core.new.maps }
    ensures sound { IsSound core.new (S.meaning shelf.new) }
    ensures stands { OnOk result (Remarks core.old core.new (S.meaning shelf.old) (S.meaning shelf.new)) }
    ensures moves { Moves (map_run core.old) (Marking core.old (IsPlaceAbove core.old (volume_size core.old.units.vols (S.meaning shelf.old)) slot above) true (S.meaning shelf.old)) (S.meaning shelf.old) (S.meaning shelf.new) }
    ensures spends { Spends (S.meaning shelf.old) (S.meaning shelf.new) }
    ensures blames { IfErr result (BlamesUnit (S.meaning shelf.old).disks core.old.units.maps) }
{
    // A log bounds the blocks of its records by its ring.
    let _ring = core.srl.ring();
    let last = core.srl.head();
    for before in above..last {
        if let Err(no) = mark_next(shelf, core, slot, before) {
            return Err(no);
        }
    }
    Ok(())
}

// The same, where no call answered 7 before and the shelf is up.
fn mark_behind<S: Shelf>(shelf: &mut S, core: &mut RvgCore, slot: u32, above: u64) -> Result<(), No>
    requires sound { IsSound core.old (S.meaning shelf.old) }
    requires slot { slot < LINK_PLACES }
    requires low { core.old.log.header.low ≤ above + 1 }
    ensures answers { MarkIs (halted_or core.old.halted None) core.old (S.meaning shelf.old) (S.meaning shelf.new) core.new result }
    ensures unchanged { IsSome (halted_or core.old.halted None) → shelf.new ≡ shelf.old }
    ensures marked { OnOk result (AboveMarked core.old (volume_size core.old.units.vols (S.meaning shelf.old)) slot above core.new.maps) }
    ensures part { MapsBetween (λ k w q. k ≡ slot) true core.old.maps core.new.maps }
    ensures sound { IsSound core.new (S.meaning shelf.new) }
    ensures stands { OnOk result (Remarks core.old core.new (S.meaning shelf.old) (S.meaning shelf.new)) }
    ensures moves { Moves (map_run core.old) (Marking core.old (IsPlaceAbove core.old (volume_size core.old.units.vols (S.meaning shelf.old)) slot above) true (S.meaning shelf.old)) (S.meaning shelf.old) (S.meaning shelf.new) }
    ensures spends { Spends (S.meaning shelf.old) (S.meaning shelf.new) }
    ensures blames { IfErr result (BlamesUnit (S.meaning shelf.old).disks core.old.units.maps) }
{
    if let Some(disk) = core.halted {
        return Err(No::Halted { disk });
    }
    if shelf.is_down() {
        return Err(No::Down);
    }
    mark_rest(shelf, core, slot, above)
}

impl<S: Shelf> Rvg<S> {
    /// Marks the regions of all logged writes above a number in the map of a place of a link, durably. The log has to hold all numbers
    /// above it. A write that does not end within its volume has no regions. The maps of each other place are as they were.
    ///
    /// Refusals: 20 where a call answered 7 before, which changes nothing; 7 where a device call failed: then the group is halted; 6 where
    /// the shelf is down. Behind 7 and 6 each of the regions is as it was or marked.
    pub fn mark_above(&mut self, slot: u32, above: u64) -> Result<(), No>
        requires slot { slot < LINK_PLACES }
        requires low { self.old.core.log.header.low ≤ above + 1 }
        ensures answers { MarkIs (halted_or self.old.core.halted None) self.old.core (S.meaning self.old.shelf) (S.meaning self.new.shelf) self.new.core result }
        ensures unchanged { IsSome (halted_or self.old.core.halted None) → self.new.shelf ≡ self.old.shelf }
        ensures marked { OnOk result (AboveMarked self.old.core (volume_size self.old.core.units.vols (S.meaning self.old.shelf)) slot above self.new.core.maps) }
        ensures part { MapsBetween (λ k w q. k ≡ slot) true self.old.core.maps self.new.core.maps }
        ensures stands { OnOk result (Remarks self.old.core self.new.core (S.meaning self.old.shelf) (S.meaning self.new.shelf)) }
        ensures moves { Moves (map_run self.old.core) (Marking self.old.core (IsPlaceAbove self.old.core (volume_size self.old.core.units.vols (S.meaning self.old.shelf)) slot above) true (S.meaning self.old.shelf)) (S.meaning self.old.shelf) (S.meaning self.new.shelf) }
        ensures spends { Spends (S.meaning self.old.shelf) (S.meaning self.new.shelf) }
        ensures blames { IfErr result (BlamesUnit (S.meaning self.old.shelf).disks self.old.core.units.maps) }
    {
        mark_behind(&mut self.shelf, &mut self.core, slot, above)
    }
}

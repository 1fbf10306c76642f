// The joining of marks that come as the bytes of a map.
ghost use Rattle.std.specs.Prelude.{◌≡◌, None, true, IfErr, IsFalse, IsSome, OnOk, length};
ghost use Rattle.vx_dcm.specs.Joined.{BytesMarked, IsInBytes, IsPlaceInBytes, JoinFits};
ghost use Rattle.vx_dcm.specs.Places.{MapsBetween};
ghost use Rattle.vx_disk.specs.Causes.{BlamesUnit};
ghost use Rattle.vx_disk.specs.Moves.{Moves};
ghost use Rattle.vx_disk.specs.Spends.{Spends};
ghost use Rattle.vx_rvg.specs.Groups.{halted_or};
ghost use Rattle.vx_rvg.specs.Marks.{MarkIs, Marking, Marks, Remarks, map_run};
ghost use Rattle.vx_rvg.specs.Views.{IsSound};

use crate::{Rvg, RvgCore};
use vx_disk::Shelf;
use vx_model::No;

// Marks the regions that bytes have, durably. A device call that fails halts the group.
fn join_map<S: Shelf>(
    shelf: &mut S,
    core: &mut RvgCore,
    slot: u32,
    vol: u32,
    bytes: &[u8],
) -> Result<(), No>
    requires sound { IsSound core.old (S.meaning shelf.old) }
    requires up { IsFalse (S.meaning shelf.old).down }
    requires fits { JoinFits core.old.maps slot vol (length bytes.now) }
    ensures marks { Marks core.old (S.meaning shelf.old) (S.meaning shelf.new) core.new result }
    ensures marked { OnOk result (BytesMarked slot vol bytes.now core.new.maps) }
    ensures part { MapsBetween (IsInBytes slot vol bytes.now) true core.old.maps core.new.maps }
    ensures nothing { BytesMarked slot vol bytes.now core.old.maps → shelf.new ≡ shelf.old }
    ensures sound { IsSound core.new (S.meaning shelf.new) }
    ensures stands { OnOk result (Remarks core.old core.new (S.meaning shelf.old) (S.meaning shelf.new)) }
    ensures moves { Moves (map_run core.old) (Marking core.old (IsPlaceInBytes core.old.maps slot vol bytes.now) true (S.meaning shelf.old)) (S.meaning shelf.old) (S.meaning shelf.new) }
    ensures spends { Spends (S.meaning shelf.old) (S.meaning shelf.new) }
    ensures blames { IfErr result (BlamesUnit (S.meaning shelf.old).disks core.old.units.maps) }
{
    match core.maps.join(shelf, slot, vol, bytes) {
        Ok(()) => Ok(()),
        Err(no) => {
            core.halt(&no);
            Err(no)
        }
    }
}

// The same, where no call answered 7 before and the shelf is up.
fn join_up<S: Shelf>(
    shelf: &mut S,
    core: &mut RvgCore,
    slot: u32,
    vol: u32,
    bytes: &[u8],
) -> Result<(), No>
    requires sound { IsSound core.old (S.meaning shelf.old) }
    requires fits { JoinFits core.old.maps slot vol (length bytes.now) }
    ensures answers { MarkIs (halted_or core.old.halted None) core.old (S.meaning shelf.old) (S.meaning shelf.new) core.new result }
    ensures unchanged { IsSome (halted_or core.old.halted None) → shelf.new ≡ shelf.old }
    ensures marked { OnOk result (BytesMarked slot vol bytes.now core.new.maps) }
    ensures part { MapsBetween (IsInBytes slot vol bytes.now) true core.old.maps core.new.maps }
    ensures nothing { BytesMarked slot vol bytes.now core.old.maps → shelf.new ≡ shelf.old }
    ensures sound { IsSound core.new (S.meaning shelf.new) }
    ensures stands { OnOk result (Remarks core.old core.new (S.meaning shelf.old) (S.meaning shelf.new)) }
    ensures moves { Moves (map_run core.old) (Marking core.old (IsPlaceInBytes core.old.maps slot vol bytes.now) true (S.meaning shelf.old)) (S.meaning shelf.old) (S.meaning shelf.new) }
    ensures spends { Spends (S.meaning shelf.old) (S.meaning shelf.new) }
    ensures blames { IfErr result (BlamesUnit (S.meaning shelf.old).disks core.old.units.maps) }
{
    if let Some(disk) = core.halted {
        return Err(No::Halted { disk });
    }
    if shelf.is_down() {
        return Err(No::Down);
    }
    join_map(shelf, core, slot, vol, bytes)
}

impl<S: Shelf> Rvg<S> {
    /// Whether there is such a place of a link and volume, and so many bytes have a bit for each of its regions, with no byte more.
    pub fn takes(&self, slot: u32, vol: u32, bytes: usize) -> bool
        ensures is { result ≡ true → JoinFits self.now.core.maps slot vol bytes }
        ensures only { JoinFits self.now.core.maps slot vol bytes → result ≡ true }
    {
        self.core.maps.takes(slot, vol, bytes)
    }

    /// Marks each region of a volume that these bytes have in the map of a place of a link, durably, a bit for each region from the lowest on.
    /// It makes no device call where all of them are marked. Each other region of each map is as it was.
    ///
    /// Refusals: 20 where a call answered 7 before, which changes nothing; 7 where a device call failed: then the group is halted; 6 where
    /// the shelf is down. Behind 7 and 6 each of the regions is as it was or marked.
    pub fn join(&mut self, slot: u32, vol: u32, bytes: &[u8]) -> Result<(), No>
        requires fits { JoinFits self.old.core.maps slot vol (length bytes.now) }
        ensures answers { MarkIs (halted_or self.old.core.halted None) self.old.core (S.meaning self.old.shelf) (S.meaning self.new.shelf) self.new.core result }
        ensures unchanged { IsSome (halted_or self.old.core.halted None) → self.new.shelf ≡ self.old.shelf }
        ensures marked { OnOk result (BytesMarked slot vol bytes.now self.new.core.maps) }
        ensures part { MapsBetween (IsInBytes slot vol bytes.now) true self.old.core.maps self.new.core.maps }
        ensures nothing { BytesMarked slot vol bytes.now self.old.core.maps → self.new.shelf ≡ self.old.shelf }
        ensures stands { OnOk result (Remarks self.old.core self.new.core (S.meaning self.old.shelf) (S.meaning self.new.shelf)) }
        ensures moves { Moves (map_run self.old.core) (Marking self.old.core (IsPlaceInBytes self.old.core.maps slot vol bytes.now) true (S.meaning self.old.shelf)) (S.meaning self.old.shelf) (S.meaning self.new.shelf) }
        ensures spends { Spends (S.meaning self.old.shelf) (S.meaning self.new.shelf) }
        ensures blames { IfErr result (BlamesUnit (S.meaning self.old.shelf).disks self.old.core.units.maps) }
    {
        join_up(&mut self.shelf, &mut self.core, slot, vol, bytes)
    }
}

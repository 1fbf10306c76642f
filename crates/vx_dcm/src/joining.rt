// Marks that come as the bytes of a map.
ghost use Rattle.std.specs.Prelude.{◌≡◌, ◌*◌, ◌<◌, ◌≤◌, ℕ, IfErr, IsTrue, OnOk, false, length, true};
ghost use Rattle.vx_bitmap.specs.Bits.{is_marked};
ghost use Rattle.vx_bitmap.specs.Maps.{Lies, MapOn, SamePlace, map_block_count, regions_mapped};
ghost use Rattle.vx_disk.specs.Causes.{BlamesUnit, DeviceCause};
ghost use Rattle.vx_disk.specs.Moves.{Moves, Run};
ghost use Rattle.vx_disk.specs.Spends.{Spends};
ghost use Rattle.vx_dcm.specs.Joined.{BytesMarked, IsInBytes, IsPlaceInBytes, JoinFits};
ghost use Rattle.vx_dcm.specs.Places.{MapChanging, MapsBetween, SomeChanged};

use crate::Dcm;
use vx_bitmap::has_bit;
use vx_disk::Shelf;
use vx_model::No;

// Whether the bytes have a region.
fn has_region_bit(bytes: &[u8], region: u64) -> bool
    requires inside { region < 8 * length bytes.now }
    ensures { result ≡ is_marked bytes.now region }
{
    has_bit(bytes[(region / 8) as usize], (region % 8) as u32)
}

// The end of the run of regions that the bytes have from a first one on, below an end.
fn run_end(bytes: &[u8], first: u64, end: u64) -> u64
    requires inside { end ≤ 8 * length bytes.now }
    requires below { first ≤ end }
    ensures low { first ≤ result }
    ensures high { result ≤ end }
    ensures has { (q : ℕ) → first ≤ q → q < result → is_marked bytes.now q ≡ true }
    ensures past { result < end → is_marked bytes.now result ≡ false }
{
    for region in first..end {
        if !has_region_bit(bytes, region) {
            return region;
        }
    }
    end
}

impl Dcm {
    /// Whether there is such a place of a link and volume, and so many bytes have a bit for each of its regions, with no byte more.
    pub fn takes(&self, slot: u32, vol: u32, bytes: usize) -> bool
        ensures is { result ≡ true → JoinFits self.now slot vol bytes }
        ensures only { JoinFits self.now slot vol bytes → result ≡ true }
    {
        self.has_map(slot, vol) && bytes as u64 == self.regions(vol).div_ceil(8)
    }

    /// Marks, in the map of a volume for a place of a link, each region that these bytes have, a bit for each region from the lowest on,
    /// durably. It makes no device call where all of them are marked. Each other region of each map is as it was.
    ///
    /// Refusals: 7 where a device call failed, 6 where the shelf is down. Behind them each of the regions is as it was or marked.
    pub fn join<S: Shelf>(
        &mut self,
        shelf: &mut S,
        slot: u32,
        vol: u32,
        bytes: &[u8],
    ) -> Result<(), No>
        requires lies { Lies self.old.map (S.meaning shelf.old) }
        requires fits { JoinFits self.old slot vol (length bytes.now) }
        ensures moves { Moves (Run self.old.map.unit self.old.map.first (map_block_count self.old.map)) (MapChanging self.old.map (IsPlaceInBytes self.old slot vol bytes.now) true (S.meaning shelf.old)) (S.meaning shelf.old) (S.meaning shelf.new) }
        ensures bits { SomeChanged (IsPlaceInBytes self.old slot vol bytes.now) true (regions_mapped self.old.map) (is_marked self.old.map.bytes) (is_marked self.new.map.bytes) }
        ensures stands { OnOk result (MapOn self.old.map (S.meaning shelf.old) → MapOn self.new.map (S.meaning shelf.new)) }
        ensures marked { OnOk result (BytesMarked slot vol bytes.now self.new) }
        ensures part { MapsBetween (IsInBytes slot vol bytes.now) true self.old self.new }
        ensures place { SamePlace self.old.map self.new.map }
        ensures sizes { self.new.sizes ≡ self.old.sizes }
        ensures cause { IfErr result (DeviceCause (S.meaning shelf.old) (S.meaning shelf.new)) }
        ensures up { OnOk result (IsTrue (S.meaning shelf.new).down → IsTrue (S.meaning shelf.old).down) }
        ensures nothing { BytesMarked slot vol bytes.now self.old → shelf.new ≡ shelf.old }
        ensures spends { Spends (S.meaning shelf.old) (S.meaning shelf.new) }
        ensures blames { IfErr result (BlamesUnit (S.meaning shelf.old).disks self.old.map.unit) }
    {
        let regions = self.regions(vol);
        let mut first = 0;
        while first < regions {
            let end = run_end(bytes, first, regions);
            if first < end {
                if let Err(no) = self.mark_run(shelf, slot, vol, first, end - 1, true) {
                    return Err(no);
                }
            }
            first = end + 1;
        }
        Ok(())
    }
}

// A map of regions, kept in memory beside its blocks.
ghost use Rattle.std.specs.Prelude.{◌≡◌, ◌+◌, ◌*◌, ◌/◌, ◌<◌, ◌≤◌, ◌%◌, true, false, ℕ, IfOk, IfErr, IsFalse, OnOk, length};
ghost use Rattle.std.specs.Int.{div_ceil};
ghost use Rattle.vx_model.specs.declared.limits.TheConstants.{MOST_MAP_BLOCKS};
ghost use Rattle.vx_bitmap.specs.Bits.{AllAre, Between, Changed, is_marked as is_marked_is};
ghost use Rattle.vx_bitmap.specs.Maps.{ChangedAt, Changing, IsRead, Lies, LoadCause, Loaded, LoadedIn, Map, MapOn, UnitCause, map_block_count, SamePlace, regions_mapped};
ghost use Rattle.vx_disk.specs.Causes.{BlamesUnit, DeviceCause};
ghost use Rattle.vx_disk.specs.Moves.{Moves, Run, Settled};
ghost use Rattle.vx_disk.specs.Shelf.{Goes, Nothing};
ghost use Rattle.vx_disk.specs.Spends.{Spends};

use crate::bit::has_bit;
use crate::change::change;
use std::alloc::Global;
use std::marker::Model;
use vx_disk::{Shelf, refusal};
use vx_model::limits::{BLOCK, MAP_REGIONS};
use vx_model::{No, Stop};

/// A map of regions, in memory and in a run of blocks of a shelf. Contracts see where it stands and its bytes.
#[derive(Drop)]
pub struct Bitmap {
    unit: u32,
    first: u64,
    bytes: Vec<u8>,
}

impl Model for Bitmap {
    ghost use Rattle.std.specs.Prelude.{◌≡◌, ◌%◌, length};
    ghost use Rattle.vx_model.specs.declared.limits.TheConstants.{BLOCK};
    ghost use Rattle.vx_bitmap.specs.Maps.{Map};

    ghost Value = { Map };

    ghost view = { λ b. record { unit = b.unit; first = b.first; bytes = b.bytes.items } };

    ghost invariant = { λ b. length b.bytes.items % BLOCK ≡ 0 };
}

impl Bitmap {
    /// Reads the map of so many regions, whose blocks begin here. It changes nothing. Where a crash leaves one value at most in each of
    /// its blocks, the map stands.
    ///
    /// It takes the memory of the map's blocks. Refusal 7, where the device call failed.
    pub fn load<S: Shelf>(
        alloc: Global,
        shelf: &mut S,
        unit: u32,
        first: u64,
        regions: u64,
    ) -> Result<Bitmap, Stop>
        requires some { 0 < regions }
        requires few { regions ≤ MOST_MAP_BLOCKS * MAP_REGIONS }
        requires exists { unit < (S.meaning shelf.old).units }
        requires within { first + div_ceil regions MAP_REGIONS ≤ (S.meaning shelf.old).size unit }
        requires up { IsFalse (S.meaning shelf.old).down }
        ensures loaded { IfOk result (λ map. Loaded unit first regions map) }
        ensures read { IfOk result (λ map. IsRead map (S.meaning shelf.old)) }
        ensures stands { IfOk result (λ map. Settled (S.meaning shelf.old) (Run unit first (map_block_count map)) → MapOn map (S.meaning shelf.new)) }
        ensures goes { Goes Nothing (S.meaning shelf.old) (S.meaning shelf.new) }
        ensures cause { IfErr result (LoadCause (S.meaning shelf.old) (S.meaning shelf.new)) }
    {
        let blocks = regions.div_ceil(MAP_REGIONS) as usize;
        let bytes = Vec::from_elem(alloc, 0u8, BLOCK * blocks)?;
        match Bitmap::load_in(bytes, shelf, unit, first) {
            Ok(map) => Ok(map),
            Err(no) => Err(Stop::No(no)),
        }
    }

    /// The same with memory that was taken before, as many bytes as the map's blocks have. For a map without blocks it makes no device
    /// call.
    pub fn load_in<S: Shelf>(
        bytes: Vec<u8>,
        shelf: &mut S,
        unit: u32,
        first: u64,
    ) -> Result<Bitmap, No>
        requires whole { length bytes.items % BLOCK ≡ 0 }
        requires exists { unit < (S.meaning shelf.old).units }
        requires within { first + length bytes.items / BLOCK ≤ (S.meaning shelf.old).size unit }
        requires up { IsFalse (S.meaning shelf.old).down }
        ensures loaded { IfOk result (λ map. LoadedIn unit first (length bytes.items) map) }
        ensures lies { IfOk result (λ map. Lies map (S.meaning shelf.new)) }
        ensures read { IfOk result (λ map. IsRead map (S.meaning shelf.old)) }
        ensures stands { IfOk result (λ map. Settled (S.meaning shelf.old) (Run unit first (map_block_count map)) → MapOn map (S.meaning shelf.new)) }
        ensures goes { Goes Nothing (S.meaning shelf.old) (S.meaning shelf.new) }
        ensures up { (S.meaning shelf.new).down ≡ (S.meaning shelf.old).down }
        ensures spends { Spends (S.meaning shelf.old) (S.meaning shelf.new) }
        ensures cause { IfErr result (DeviceCause (S.meaning shelf.old) (S.meaning shelf.new)) }
    {
        let mut bytes = bytes;
        if bytes.is_empty() {
            return Ok(Bitmap { unit, first, bytes });
        }
        match shelf.read(unit, first, &mut bytes) {
            Ok(()) => Ok(Bitmap { unit, first, bytes }),
            Err(error) => Err(refusal(error)),
        }
    }

    /// Whether a region is marked.
    pub fn test(&self, region: u64) -> bool
        requires inside { region < regions_mapped self.now }
        ensures { result ≡ is_marked_is self.now.bytes region }
    {
        has_bit(self.bytes[(region / 8) as usize], (region % 8) as u32)
    }

    /// Marks the regions from `start` to `end`, both included, durably, with a write and a flush for each block in which one is not
    /// marked yet.
    ///
    /// Refusals: 7 where a device call failed, 6 where the shelf is down. Behind them each of the regions is as it was or marked.
    pub fn set_run<S: Shelf>(&mut self, shelf: &mut S, start: u64, end: u64) -> Result<(), No>
        requires lies { Lies self.old (S.meaning shelf.old) }
        requires some { start ≤ end }
        requires inside { end < regions_mapped self.old }
        ensures moves { Moves (Run self.old.unit self.old.first (map_block_count self.old)) (Changing self.old start end true (S.meaning shelf.old)) (S.meaning shelf.old) (S.meaning shelf.new) }
        ensures writes { Goes (ChangedAt self.old start end true (S.meaning shelf.old)) (S.meaning shelf.old) (S.meaning shelf.new) }
        ensures stands { OnOk result (MapOn self.old (S.meaning shelf.old) → MapOn self.new (S.meaning shelf.new)) }
        ensures changed { OnOk result (Changed start end true (regions_mapped self.old) (is_marked_is self.old.bytes) (is_marked_is self.new.bytes)) }
        ensures part { Between start end true (regions_mapped self.old) (is_marked_is self.old.bytes) (is_marked_is self.new.bytes) }
        ensures place { SamePlace self.old self.new }
        ensures cause { IfErr result (DeviceCause (S.meaning shelf.old) (S.meaning shelf.new)) }
        ensures unit { UnitCause self.old.unit (S.meaning shelf.old) (S.meaning shelf.new) result }
        ensures nothing { AllAre start end true (is_marked_is self.old.bytes) → shelf.new ≡ shelf.old }
        ensures spends { Spends (S.meaning shelf.old) (S.meaning shelf.new) }
        ensures blames { IfErr result (BlamesUnit (S.meaning shelf.old).disks self.old.unit) }
    {
        match change(
            shelf,
            self.unit,
            self.first,
            &mut self.bytes,
            start,
            end,
            true,
        ) {
            Ok(()) => Ok(()),
            Err(error) => Err(refusal(error)),
        }
    }

    /// The same with the marks taken off.
    pub fn clear_run<S: Shelf>(&mut self, shelf: &mut S, start: u64, end: u64) -> Result<(), No>
        requires lies { Lies self.old (S.meaning shelf.old) }
        requires some { start ≤ end }
        requires inside { end < regions_mapped self.old }
        ensures moves { Moves (Run self.old.unit self.old.first (map_block_count self.old)) (Changing self.old start end false (S.meaning shelf.old)) (S.meaning shelf.old) (S.meaning shelf.new) }
        ensures writes { Goes (ChangedAt self.old start end false (S.meaning shelf.old)) (S.meaning shelf.old) (S.meaning shelf.new) }
        ensures stands { OnOk result (MapOn self.old (S.meaning shelf.old) → MapOn self.new (S.meaning shelf.new)) }
        ensures changed { OnOk result (Changed start end false (regions_mapped self.old) (is_marked_is self.old.bytes) (is_marked_is self.new.bytes)) }
        ensures part { Between start end false (regions_mapped self.old) (is_marked_is self.old.bytes) (is_marked_is self.new.bytes) }
        ensures place { SamePlace self.old self.new }
        ensures cause { IfErr result (DeviceCause (S.meaning shelf.old) (S.meaning shelf.new)) }
        ensures unit { UnitCause self.old.unit (S.meaning shelf.old) (S.meaning shelf.new) result }
        ensures nothing { AllAre start end false (is_marked_is self.old.bytes) → shelf.new ≡ shelf.old }
        ensures spends { Spends (S.meaning shelf.old) (S.meaning shelf.new) }
        ensures blames { IfErr result (BlamesUnit (S.meaning shelf.old).disks self.old.unit) }
    {
        match change(
            shelf,
            self.unit,
            self.first,
            &mut self.bytes,
            start,
            end,
            false,
        ) {
            Ok(()) => Ok(()),
            Err(error) => Err(refusal(error)),
        }
    }

    /// Marks one region, durably. It makes no device call where the region is marked.
    pub fn set<S: Shelf>(&mut self, shelf: &mut S, region: u64) -> Result<(), No>
        requires lies { Lies self.old (S.meaning shelf.old) }
        requires inside { region < regions_mapped self.old }
        ensures moves { Moves (Run self.old.unit self.old.first (map_block_count self.old)) (Changing self.old region region true (S.meaning shelf.old)) (S.meaning shelf.old) (S.meaning shelf.new) }
        ensures writes { Goes (ChangedAt self.old region region true (S.meaning shelf.old)) (S.meaning shelf.old) (S.meaning shelf.new) }
        ensures stands { OnOk result (MapOn self.old (S.meaning shelf.old) → MapOn self.new (S.meaning shelf.new)) }
        ensures changed { OnOk result (Changed region region true (regions_mapped self.old) (is_marked_is self.old.bytes) (is_marked_is self.new.bytes)) }
        ensures part { Between region region true (regions_mapped self.old) (is_marked_is self.old.bytes) (is_marked_is self.new.bytes) }
        ensures place { SamePlace self.old self.new }
        ensures cause { IfErr result (DeviceCause (S.meaning shelf.old) (S.meaning shelf.new)) }
        ensures unit { UnitCause self.old.unit (S.meaning shelf.old) (S.meaning shelf.new) result }
        ensures nothing { AllAre region region true (is_marked_is self.old.bytes) → shelf.new ≡ shelf.old }
        ensures spends { Spends (S.meaning shelf.old) (S.meaning shelf.new) }
        ensures blames { IfErr result (BlamesUnit (S.meaning shelf.old).disks self.old.unit) }
    {
        self.set_run(shelf, region, region)
    }

    /// Takes the mark of one region off, durably. It makes no device call where the region is not marked.
    pub fn clear<S: Shelf>(&mut self, shelf: &mut S, region: u64) -> Result<(), No>
        requires lies { Lies self.old (S.meaning shelf.old) }
        requires inside { region < regions_mapped self.old }
        ensures moves { Moves (Run self.old.unit self.old.first (map_block_count self.old)) (Changing self.old region region false (S.meaning shelf.old)) (S.meaning shelf.old) (S.meaning shelf.new) }
        ensures writes { Goes (ChangedAt self.old region region false (S.meaning shelf.old)) (S.meaning shelf.old) (S.meaning shelf.new) }
        ensures stands { OnOk result (MapOn self.old (S.meaning shelf.old) → MapOn self.new (S.meaning shelf.new)) }
        ensures changed { OnOk result (Changed region region false (regions_mapped self.old) (is_marked_is self.old.bytes) (is_marked_is self.new.bytes)) }
        ensures part { Between region region false (regions_mapped self.old) (is_marked_is self.old.bytes) (is_marked_is self.new.bytes) }
        ensures place { SamePlace self.old self.new }
        ensures cause { IfErr result (DeviceCause (S.meaning shelf.old) (S.meaning shelf.new)) }
        ensures unit { UnitCause self.old.unit (S.meaning shelf.old) (S.meaning shelf.new) result }
        ensures nothing { AllAre region region false (is_marked_is self.old.bytes) → shelf.new ≡ shelf.old }
        ensures spends { Spends (S.meaning shelf.old) (S.meaning shelf.new) }
        ensures blames { IfErr result (BlamesUnit (S.meaning shelf.old).disks self.old.unit) }
    {
        self.clear_run(shelf, region, region)
    }
}

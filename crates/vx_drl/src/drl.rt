// The dirty region log of a volume.
ghost use Rattle.std.specs.Prelude.{◌≡◌, ◌-◌, ◌<◌, ◌≤◌, true, false, IfErr, IfOk, IsFalse, OnErr, OnOk};
ghost use Rattle.vx_bitmap.specs.Bits.{AllAre, Between, Changed};
ghost use Rattle.vx_bitmap.specs.Maps.{ChangedAt, Changing, IsRead, Lies, LoadCause, MapOn, SamePlace, UnitCause, map_block_count as map_blocks, regions_mapped};
ghost use Rattle.vx_config.specs.declared.entry.VolumeLog.TheVariants.{Drl as DrlLog};
ghost use Rattle.vx_disk.specs.Causes.{DeviceCause};
ghost use Rattle.vx_disk.specs.Moves.{Moves, Run, Settled};
ghost use Rattle.vx_disk.specs.Shelf.{Goes, Nothing};
ghost use Rattle.vx_maplog.specs.Logs.{DisksReach, HasLog};
ghost use Rattle.vx_drl.specs.Dirty.{Dirty, DrlLoaded, HoldsMarks, is_dirty};
ghost use Rattle.vx_drl.specs.declared.marks.TheConstants.{MOST_HELD};

use crate::marks::{MOST_HELD, are_marked, held_with};
use std::alloc::Global;
use std::marker::Model;
use vx_bitmap::Bitmap;
use vx_config::{Config, VolumeLog, blocks_of};
use vx_disk::Shelf;
use vx_model::limits::REGION;
use vx_model::{No, Stop};

/// The dirty regions of a volume, in memory and in a run of blocks of a shelf.
#[derive(Drop)]
pub struct Drl {
    map: Bitmap,
    pub(crate) regions: u64,
    held: u64,
}

impl Model for Drl {
    ghost use Rattle.vx_drl.specs.Dirty.{Dirty, IsDirtyKept};

    ghost Value = { Dirty };

    ghost view = { λ d. record { map = d.map; regions = d.regions; held = d.held } };

    ghost invariant = { λ d. IsDirtyKept d.map d.regions };
}

impl Drl {
    /// Reads the dirty regions of a volume of a checked configuration. It changes nothing. Where a crash leaves one value at most in each
    /// block of the log, the map stands.
    ///
    /// It takes the memory of the map's blocks; for a map of more than 65,536 blocks there is none. Refusal 7, where the device call failed.
    pub fn load<S: Shelf>(
        alloc: Global,
        shelf: &mut S,
        config: &Config,
        volume: u32,
    ) -> Result<Drl, Stop>
        requires has { HasLog config.now volume DrlLog }
        requires disks { DisksReach config.now.disks (S.meaning shelf.old) }
        requires up { IsFalse (S.meaning shelf.old).down }
        ensures loaded { IfOk result (λ drl. DrlLoaded config.now volume drl) }
        ensures lies { IfOk result (λ drl. Lies drl.map (S.meaning shelf.new)) }
        ensures read { IfOk result (λ drl. IsRead drl.map (S.meaning shelf.old)) }
        ensures stands { IfOk result (λ drl. Settled (S.meaning shelf.old) (Run drl.map.unit drl.map.first (map_blocks drl.map)) → MapOn drl.map (S.meaning shelf.new)) }
        ensures goes { Goes Nothing (S.meaning shelf.old) (S.meaning shelf.new) }
        ensures cause { IfErr result (LoadCause (S.meaning shelf.old) (S.meaning shelf.new)) }
    {
        match vx_maplog::load(alloc, shelf, config, volume, VolumeLog::Drl) {
            Ok(map) => {
                let regions = blocks_of(config, volume).div_ceil(REGION);
                Ok(Drl {
                    map,
                    regions,
                    held: MOST_HELD + 1,
                })
            }
            Err(stop) => Err(stop),
        }
    }

    /// Marks the regions from `first` to `last`, both included, durably. It makes no device call where all are marked.
    ///
    /// Refusals: 7 where a device call failed, 6 where the shelf is down. Behind them each of the regions is as it was or marked.
    pub fn mark<S: Shelf>(&mut self, shelf: &mut S, first: u64, last: u64) -> Result<(), No>
        requires lies { Lies self.old.map (S.meaning shelf.old) }
        requires some { first ≤ last }
        requires inside { last < self.old.regions }
        ensures moves { Moves (Run self.old.map.unit self.old.map.first (map_blocks self.old.map)) (Changing self.old.map first last true (S.meaning shelf.old)) (S.meaning shelf.old) (S.meaning shelf.new) }
        ensures writes { Goes (ChangedAt self.old.map first last true (S.meaning shelf.old)) (S.meaning shelf.old) (S.meaning shelf.new) }
        ensures stands { OnOk result (MapOn self.old.map (S.meaning shelf.old) → MapOn self.new.map (S.meaning shelf.new)) }
        ensures changed { OnOk result (Changed first last true (regions_mapped self.old.map) (is_dirty self.old) (is_dirty self.new)) }
        ensures part { Between first last true (regions_mapped self.old.map) (is_dirty self.old) (is_dirty self.new) }
        ensures place { SamePlace self.old.map self.new.map }
        ensures regions { self.new.regions ≡ self.old.regions }
        ensures held { HoldsMarks first last self.old self.new }
        ensures cause { IfErr result (DeviceCause (S.meaning shelf.old) (S.meaning shelf.new)) }
        ensures unit { UnitCause self.old.map.unit (S.meaning shelf.old) (S.meaning shelf.new) result }
        ensures nothing { AllAre first last true (is_dirty self.old) → shelf.new ≡ shelf.old }
    {
        let marked = are_marked(&self.map, first, last);
        self.held = held_with(self.held, marked, first, last);
        self.map.set_run(shelf, first, last)
    }

    /// Takes all marks off where more than 64 regions were marked since they were last taken off or read; else it does nothing. The caller
    /// says that no region has writes that were not flushed.
    ///
    /// Refusals: 7 where a device call failed, 6 where the shelf is down. Behind them each region is as it was or not marked.
    pub fn flushed<S: Shelf>(&mut self, shelf: &mut S) -> Result<(), No>
        requires lies { Lies self.old.map (S.meaning shelf.old) }
        ensures moves { Moves (Run self.old.map.unit self.old.map.first (map_blocks self.old.map)) (Changing self.old.map 0 (self.old.regions - 1) false (S.meaning shelf.old)) (S.meaning shelf.old) (S.meaning shelf.new) }
        ensures writes { Goes (ChangedAt self.old.map 0 (self.old.regions - 1) false (S.meaning shelf.old)) (S.meaning shelf.old) (S.meaning shelf.new) }
        ensures stands { OnOk result (MapOn self.old.map (S.meaning shelf.old) → MapOn self.new.map (S.meaning shelf.new)) }
        ensures cleared { OnOk result (MOST_HELD < self.old.held → Changed 0 (self.old.regions - 1) false (regions_mapped self.old.map) (is_dirty self.old) (is_dirty self.new)) }
        ensures empty { OnOk result (MOST_HELD < self.old.held → self.new.held ≡ 0) }
        ensures again { OnErr result (self.new.held ≡ self.old.held) }
        ensures part { Between 0 (self.old.regions - 1) false (regions_mapped self.old.map) (is_dirty self.old) (is_dirty self.new) }
        ensures place { SamePlace self.old.map self.new.map }
        ensures regions { self.new.regions ≡ self.old.regions }
        ensures cause { IfErr result (DeviceCause (S.meaning shelf.old) (S.meaning shelf.new)) }
        ensures unit { UnitCause self.old.map.unit (S.meaning shelf.old) (S.meaning shelf.new) result }
        ensures few { self.old.held ≤ MOST_HELD → self.new ≡ self.old }
        ensures nothing { self.old.held ≤ MOST_HELD → shelf.new ≡ shelf.old }
    {
        if self.held <= MOST_HELD {
            return Ok(());
        }
        match self.map.clear_run(shelf, 0, self.regions - 1) {
            Ok(()) => {
                self.held = 0;
                Ok(())
            }
            Err(no) => Err(no),
        }
    }

    /// Whether a region is marked.
    pub fn dirty(&self, region: u64) -> bool
        requires inside { region < self.now.regions }
        ensures { result ≡ is_dirty self.now region }
    {
        self.map.test(region)
    }
}

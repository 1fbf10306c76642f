// The log of missed regions of a volume.
ghost use Rattle.std.specs.Prelude.{◌≡◌, ◌+◌, ◌-◌, ◌*◌, ◌<◌, ◌≤◌, ℕ, true, false, IfErr, IfOk, IsFalse, OnOk, length};
ghost use Rattle.vx_bitmap.specs.Bits.{AllAre, Between, Changed};
ghost use Rattle.vx_bitmap.specs.Maps.{ChangedAt, Changing, IsRead, Lies, LoadCause, MapOn, SamePlace, UnitCause, map_block_count as map_blocks_of};
ghost use Rattle.vx_config.specs.declared.entry.VolumeLog.TheVariants.{Fmr as FmrLog};
ghost use Rattle.vx_disk.specs.Causes.{DeviceCause};
ghost use Rattle.vx_disk.specs.Moves.{Moves, Run, Settled};
ghost use Rattle.vx_disk.specs.Shelf.{Goes, Nothing};
ghost use Rattle.vx_maplog.specs.Logs.{DisksReach, HasLog};
ghost use Rattle.vx_fmr.specs.Missed.{FmrLoaded, OthersSame, SameMissedShape, has_missed, missed_place};

use std::alloc::Global;
use std::marker::Model;
use vx_bitmap::Bitmap;
use vx_config::{Config, VolumeLog, blocks_of};
use vx_disk::Shelf;
use vx_maplog::plexes_of;
use vx_model::limits::{MAP_REGIONS, REGION};
use vx_model::{No, Stop, map_blocks};

/// The missed regions of each plex of a volume, in memory and in a run of blocks of a shelf.
#[derive(Drop)]
pub struct Fmr {
    map: Bitmap,
    pub(crate) plexes: u64,
    stride: u64,
    pub(crate) regions: u64,
}

impl Model for Fmr {
    ghost use Rattle.vx_fmr.specs.Missed.{IsMissedKept, Missed};

    ghost Value = { Missed };

    ghost view = { λ f. record { map = f.map; plexes = f.plexes; stride = f.stride; regions = f.regions } };

    ghost invariant = { λ f. IsMissedKept f.map f.plexes f.stride f.regions };
}

impl Fmr {
    /// Reads the missed regions of the plexes of a volume of a checked configuration. It changes nothing. Where a crash leaves one value at
    /// most in each block of the log, the maps stand.
    ///
    /// It takes the memory of the maps' blocks; for more than 65,536 blocks there is none. Refusal 7, where the device call failed.
    pub fn load<S: Shelf>(
        alloc: Global,
        shelf: &mut S,
        config: &Config,
        volume: u32,
    ) -> Result<Fmr, Stop>
        requires has { HasLog config.now volume FmrLog }
        requires disks { DisksReach config.now.disks (S.meaning shelf.old) }
        requires up { IsFalse (S.meaning shelf.old).down }
        ensures loaded { IfOk result (λ fmr. FmrLoaded config.now volume fmr) }
        ensures lies { IfOk result (λ fmr. Lies fmr.map (S.meaning shelf.new)) }
        ensures read { IfOk result (λ fmr. IsRead fmr.map (S.meaning shelf.old)) }
        ensures stands { IfOk result (λ fmr. Settled (S.meaning shelf.old) (Run fmr.map.unit fmr.map.first (map_blocks_of fmr.map)) → MapOn fmr.map (S.meaning shelf.new)) }
        ensures goes { Goes Nothing (S.meaning shelf.old) (S.meaning shelf.new) }
        ensures cause { IfErr result (LoadCause (S.meaning shelf.old) (S.meaning shelf.new)) }
    {
        match vx_maplog::load(alloc, shelf, config, volume, VolumeLog::Fmr) {
            Ok(map) => {
                let blocks = blocks_of(config, volume);
                let plexes = plexes_of(config, volume);
                let stride = MAP_REGIONS * map_blocks(blocks);
                let regions = blocks.div_ceil(REGION);
                Ok(Fmr {
                    map,
                    plexes,
                    stride,
                    regions,
                })
            }
            Err(stop) => Err(stop),
        }
    }

    // The place of a region of a plex in the maps of all plexes.
    fn place(&self, plex: u32, region: u64) -> u64
        requires exists { plex < self.now.plexes }
        requires inside { region < self.now.stride }
        ensures is { result ≡ missed_place self.now plex region }
        ensures within { result < 8 * length self.now.map.bytes }
    {
        u64::from(plex) * self.stride + region
    }

    /// Empties the map of a plex, durably. It makes no device call where the map is empty. The maps of other plexes are as they were.
    ///
    /// Refusals: 7 where a device call failed, 6 where the shelf is down. Behind them each of the plex's regions is as it was or not noted.
    pub fn begin<S: Shelf>(&mut self, shelf: &mut S, plex: u32) -> Result<(), No>
        requires lies { Lies self.old.map (S.meaning shelf.old) }
        requires exists { plex < self.old.plexes }
        ensures moves { Moves (Run self.old.map.unit self.old.map.first (map_blocks_of self.old.map)) (Changing self.old.map (missed_place self.old plex 0) (missed_place self.old plex (self.old.stride - 1)) false (S.meaning shelf.old)) (S.meaning shelf.old) (S.meaning shelf.new) }
        ensures writes { Goes (ChangedAt self.old.map (missed_place self.old plex 0) (missed_place self.old plex (self.old.stride - 1)) false (S.meaning shelf.old)) (S.meaning shelf.old) (S.meaning shelf.new) }
        ensures stands { OnOk result (MapOn self.old.map (S.meaning shelf.old) → MapOn self.new.map (S.meaning shelf.new)) }
        ensures changed { OnOk result (Changed 0 (self.old.stride - 1) false self.old.stride (has_missed self.old plex) (has_missed self.new plex)) }
        ensures part { Between 0 (self.old.stride - 1) false self.old.stride (has_missed self.old plex) (has_missed self.new plex) }
        ensures others { OthersSame plex self.old self.new }
        ensures place { SamePlace self.old.map self.new.map }
        ensures shape { SameMissedShape self.old self.new }
        ensures cause { IfErr result (DeviceCause (S.meaning shelf.old) (S.meaning shelf.new)) }
        ensures unit { UnitCause self.old.map.unit (S.meaning shelf.old) (S.meaning shelf.new) result }
        ensures nothing { AllAre 0 (self.old.stride - 1) false (has_missed self.old plex) → shelf.new ≡ shelf.old }
    {
        let start = self.place(plex, 0);
        let end = self.place(plex, self.stride - 1);
        self.map.clear_run(shelf, start, end)
    }

    /// Notes in the map of a plex the regions from `first` to `last`, both included, durably. It makes no device call where all are noted.
    /// The maps of other plexes are as they were.
    ///
    /// Refusals: 7 where a device call failed, 6 where the shelf is down. Behind them each of these regions is as it was or noted.
    pub fn note<S: Shelf>(
        &mut self,
        shelf: &mut S,
        plex: u32,
        first: u64,
        last: u64,
    ) -> Result<(), No>
        requires lies { Lies self.old.map (S.meaning shelf.old) }
        requires exists { plex < self.old.plexes }
        requires some { first ≤ last }
        requires inside { last < self.old.regions }
        ensures moves { Moves (Run self.old.map.unit self.old.map.first (map_blocks_of self.old.map)) (Changing self.old.map (missed_place self.old plex first) (missed_place self.old plex last) true (S.meaning shelf.old)) (S.meaning shelf.old) (S.meaning shelf.new) }
        ensures writes { Goes (ChangedAt self.old.map (missed_place self.old plex first) (missed_place self.old plex last) true (S.meaning shelf.old)) (S.meaning shelf.old) (S.meaning shelf.new) }
        ensures stands { OnOk result (MapOn self.old.map (S.meaning shelf.old) → MapOn self.new.map (S.meaning shelf.new)) }
        ensures changed { OnOk result (Changed first last true self.old.stride (has_missed self.old plex) (has_missed self.new plex)) }
        ensures part { Between first last true self.old.stride (has_missed self.old plex) (has_missed self.new plex) }
        ensures others { OthersSame plex self.old self.new }
        ensures place { SamePlace self.old.map self.new.map }
        ensures shape { SameMissedShape self.old self.new }
        ensures cause { IfErr result (DeviceCause (S.meaning shelf.old) (S.meaning shelf.new)) }
        ensures unit { UnitCause self.old.map.unit (S.meaning shelf.old) (S.meaning shelf.new) result }
        ensures nothing { AllAre first last true (has_missed self.old plex) → shelf.new ≡ shelf.old }
    {
        let start = self.place(plex, first);
        let end = self.place(plex, last);
        self.map.set_run(shelf, start, end)
    }

    /// Whether a region is noted in the map of a plex.
    pub fn missed(&self, plex: u32, region: u64) -> bool
        requires exists { plex < self.now.plexes }
        requires inside { region < self.now.regions }
        ensures { result ≡ has_missed self.now plex region }
    {
        self.map.test(self.place(plex, region))
    }
}

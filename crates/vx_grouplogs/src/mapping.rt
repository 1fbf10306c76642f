// A log of missed regions that begins anew.
ghost use Rattle.std.specs.Prelude.{◌≡◌, ◌-◌, ◌/◌, ◌<◌, ℕ, IsTrue, None, Some};
ghost use Rattle.vx_bitmap.specs.Maps.{MapOn};
ghost use Rattle.vx_config.specs.Checks.{blocks_of as blocks_of_is, is_sound};
ghost use Rattle.vx_disk.specs.Shelf.{Goes};
ghost use Rattle.vx_fmr.specs.Missed.{FmrLoaded, Missed};
ghost use Rattle.vx_grouplogs.specs.Keeps.{KeepsGroup};
ghost use Rattle.vx_grouplogs.specs.Mapping.{AreBegun, map_logs};
ghost use Rattle.vx_grouplogs.specs.On.{VolumeOn};
ghost use Rattle.vx_group.specs.Settles.{ReadsOne};
ghost use Rattle.vx_groupmaps.specs.Knowing.{MapsKnow};
ghost use Rattle.vx_groupmaps.specs.Missing.{HoldMissed, MapsReady, OnMaps};
ghost use Rattle.vx_kept.specs.Keeping.{AllOn};
ghost use Rattle.vx_logs.specs.Writes.{first_region, last_region};
ghost use Rattle.vx_logs.specs.declared.logs.Logs.{Logs as LogsValue};
ghost use Rattle.vx_volume.specs.Plexes.{DisksFit};

use crate::zeroing::zero_run;
use std::alloc::Global;
use vx_config::{Config, VolumeLog, blocks_of};
use vx_disk::Shelf;
use vx_fmr::Fmr;
use vx_groupmaps::{mark_maps, ready_maps};
use vx_logs::Logs;
use vx_maplog::log_of;

// Zeros the log of missed regions of a volume, and reads it.
fn zeroed_map<S: Shelf>(alloc: Global, config: &Config, vol: u32, shelf: &mut S) -> Option<Fmr>
    requires checked { IsTrue (is_sound config.now) }
    requires some { 0 < blocks_of_is config.now.volumes vol }
    requires disks { DisksFit config.now.disks (S.meaning shelf.old) }
    ensures goes { Goes (OnMaps config.now vol) (S.meaning shelf.old) (S.meaning shelf.new) }
    ensures fits { (f : Missed) → result ≡ Some f → FmrLoaded config.now vol f }
    ensures stands { (f : Missed) → result ≡ Some f → MapOn f.map (S.meaning shelf.new) }
{
    let entry = match log_of(config, vol, VolumeLog::Fmr) {
        Some(entry) => entry,
        None => return None,
    };
    match zero_run(shelf, u32::from(entry.disk), entry.start, entry.blocks) {
        Ok(()) => {}
        Err(_) => return None,
    }
    if shelf.is_down() {
        return None;
    }
    match Fmr::load(alloc, shelf, config, vol) {
        Ok(fmr) => Some(fmr),
        Err(_) => None,
    }
}

// Maps of all plexes of a volume, durably: no region is missed by one that is ACTIVE, and each by one that is STALE.
fn new_map<S: Shelf>(alloc: Global, config: &Config, vol: u32, shelf: &mut S) -> Option<Fmr>
    requires checked { IsTrue (is_sound config.now) }
    requires some { 0 < blocks_of_is config.now.volumes vol }
    requires disks { DisksFit config.now.disks (S.meaning shelf.old) }
    ensures goes { Goes (OnMaps config.now vol) (S.meaning shelf.old) (S.meaning shelf.new) }
    ensures fits { (f : Missed) → result ≡ Some f → FmrLoaded config.now vol f }
    ensures stands { (f : Missed) → result ≡ Some f → MapOn f.map (S.meaning shelf.new) }
    ensures holds { HoldMissed config.now vol (first_region 0) (last_region 0 (blocks_of_is config.now.volumes vol)) (map_logs result) }
    ensures ready { MapsReady config.now vol (map_logs result) }
{
    let fmr = zeroed_map(alloc, config, vol, shelf);
    let mut maps = Logs { drl: None, fmr };
    match ready_maps(&mut maps, config, vol, shelf) {
        Ok(_) => {}
        Err(_) => return None,
    }
    let blocks = blocks_of(config, vol);
    match mark_maps(&mut maps, config, vol, shelf, 0, blocks) {
        Ok(_) => {}
        Err(_) => return None,
    }
    let Logs { drl: _, fmr } = maps;
    fmr
}

/// Makes the log of missed regions of a volume one in which no plex that is ACTIVE has missed a region, and each other one all of them, durably,
/// and takes it into memory. The caller says that each block of the volume reads as one value on all plexes that are ACTIVE. Where the volume
/// has no such log, a device call fails, or memory is wanting, none is in memory.
///
/// It writes blocks of that log alone, also where the configuration holds it as lost. It takes the memory of the maps' blocks.
pub fn begin_maps<S: Shelf>(
    alloc: Global,
    logs: &mut Logs,
    config: &Config,
    vol: u32,
    shelf: &mut S,
)
    requires checked { IsTrue (is_sound config.now) }
    requires some { 0 < blocks_of_is config.now.volumes vol }
    requires disks { DisksFit config.now.disks (S.meaning shelf.old) }
    requires on { VolumeOn config.now vol logs.old (S.meaning shelf.old) }
    requires all { AllOn config.now }
    requires one { (IsTrue (S.meaning shelf.old).down → ⊥) → ReadsOne config.now vol (S.meaning shelf.old) }
    ensures goes { Goes (OnMaps config.now vol) (S.meaning shelf.old) (S.meaning shelf.new) }
    ensures group { KeepsGroup config.now (S.meaning shelf.old) (S.meaning shelf.new) }
    ensures on { VolumeOn config.now vol logs.new (S.meaning shelf.new) }
    ensures drl { logs.new.drl ≡ logs.old.drl }
    ensures others { (w : ℕ) (l : LogsValue) → (w ≡ vol → ⊥) → VolumeOn config.now w l (S.meaning shelf.old) → VolumeOn config.now w l (S.meaning shelf.new) }
    ensures knows { MapsKnow config.now vol logs.new (S.meaning shelf.new) }
    ensures ready { MapsReady config.now vol logs.new }
    ensures begun { AreBegun config.now vol logs.new }
{
    logs.fmr = new_map(alloc, config, vol, shelf);
}

// The maps of all plexes of a volume, behind a write that was refused.
ghost use Rattle.std.specs.Prelude.{◌≡◌, ◌+◌, ◌<◌, ◌≤◌, false, IfErr, IsTrue, OnOk};
ghost use Rattle.vx_bitmap.specs.Maps.{UnitCause};
ghost use Rattle.vx_config.specs.Checks.{blocks_of as blocks_of_is, is_sound, plexes_of};
ghost use Rattle.vx_disk.specs.Causes.{DeviceCause};
ghost use Rattle.vx_disk.specs.Shelf.{Goes};
ghost use Rattle.vx_groupmaps.specs.Refusing.{all_plexes, AreMissedMaps, first_plexes, MapBlocks};
ghost use Rattle.vx_logs.specs.Held.{LogsFit};
ghost use Rattle.vx_logs.specs.Noting.{FmrAnswers, FmrAt, FmrKeeps, FmrNoted, IsMissedMap, NotedAt, SameFmr, is_one, this_plex};
ghost use Rattle.vx_logs.specs.Writes.{first_region, last_region};
ghost use Rattle.vx_model.specs.declared.limits.TheConstants.{MOST_PLEXES, REGION};
ghost use Rattle.vx_volume.specs.Plexes.{DisksFit};

use vx_config::{Config, blocks_of};
use vx_disk::Shelf;
use vx_fmr::Fmr;
use vx_logs::Logs;
use vx_model::No;
use vx_model::limits::REGION;
use vx_volume::plex_count;

// Notes a run of regions in the map of a plex.
fn miss_one<S: Shelf>(
    map: &mut Fmr,
    shelf: &mut S,
    plex: u32,
    first: u64,
    last: u64,
) -> Result<(), No>
    requires has { IsMissedMap last map.old (S.meaning shelf.old) }
    requires exists { plex < map.old.plexes }
    requires some { first ≤ last }
    ensures writes { Goes (NotedAt (this_plex plex) false first last map.old (S.meaning shelf.old)) (S.meaning shelf.old) (S.meaning shelf.new) }
    ensures ok { OnOk result (FmrNoted (this_plex plex) false first last map.old map.new (S.meaning shelf.old) (S.meaning shelf.new)) }
    ensures same { SameFmr map.old map.new }
    ensures unit { UnitCause map.old.map.unit (S.meaning shelf.old) (S.meaning shelf.new) result }
    ensures cause { IfErr result (DeviceCause (S.meaning shelf.old) (S.meaning shelf.new)) }
{
    map.note(shelf, plex, first, last)
}

// Notes a run of regions in the maps of the first plexes.
fn miss_first<S: Shelf>(
    map: &mut Fmr,
    shelf: &mut S,
    plexes: u32,
    first: u64,
    last: u64,
) -> Result<(), No>
    requires has { IsMissedMap last map.old (S.meaning shelf.old) }
    requires many { plexes ≤ map.old.plexes }
    requires few { plexes ≤ MOST_PLEXES }
    requires some { first ≤ last }
    ensures writes { Goes (NotedAt (is_one all_plexes) false first last map.old (S.meaning shelf.old)) (S.meaning shelf.old) (S.meaning shelf.new) }
    ensures ok { OnOk result (FmrNoted (first_plexes plexes) false first last map.old map.new (S.meaning shelf.old) (S.meaning shelf.new)) }
    ensures same { SameFmr map.old map.new }
    ensures unit { UnitCause map.old.map.unit (S.meaning shelf.old) (S.meaning shelf.new) result }
    ensures cause { IfErr result (DeviceCause (S.meaning shelf.old) (S.meaning shelf.new)) }
{
    for plex in 0..plexes {
        match miss_one(map, shelf, plex, first, last) {
            Ok(()) => {}
            Err(no) => return Err(no),
        }
    }
    Ok(())
}

// The same where there is a log. Answers whether it was lost.
fn miss_maps<S: Shelf>(
    fmr: &mut Option<Fmr>,
    shelf: &mut S,
    plexes: u32,
    first: u64,
    last: u64,
) -> Result<bool, No>
    requires has { AreMissedMaps plexes last fmr.old (S.meaning shelf.old) }
    requires few { plexes ≤ MOST_PLEXES }
    requires some { first ≤ last }
    ensures writes { Goes (FmrAt (is_one all_plexes) false first last fmr.old (S.meaning shelf.old)) (S.meaning shelf.old) (S.meaning shelf.new) }
    ensures answers { FmrAnswers (first_plexes plexes) false first last fmr.old fmr.new (S.meaning shelf.old) (S.meaning shelf.new) result }
    ensures keeps { FmrKeeps fmr.old fmr.new }
{
    match fmr {
        Some(map) => match miss_first(map, shelf, plexes, first, last) {
            Ok(()) => Ok(false),
            Err(No::Device { .. }) => {
                *fmr = None;
                Ok(true)
            }
            Err(no) => Err(no),
        },
        None => Ok(false),
    }
}

/// Notes the regions of a run of blocks of a volume durably in the map of each of its plexes, whatever its state: behind a write that was
/// refused any of them may have missed any of its blocks. Answers whether the log was lost, which the caller commits. It makes no device call
/// where all are noted, or no log is in memory.
///
/// It writes blocks of that log alone. Refusal 6, where the shelf is down.
pub fn miss_run<S: Shelf>(
    logs: &mut Logs,
    config: &Config,
    vol: u32,
    shelf: &mut S,
    block: u64,
    count: u64,
) -> Result<bool, No>
    requires checked { IsTrue (is_sound config.now) }
    requires fits { LogsFit config.now vol logs.old }
    requires some { 0 < count }
    requires within { block + count ≤ blocks_of_is config.now.volumes vol }
    requires disks { DisksFit config.now.disks (S.meaning shelf.old) }
    ensures goes { Goes (MapBlocks logs.old.fmr) (S.meaning shelf.old) (S.meaning shelf.new) }
    ensures answers { FmrAnswers (first_plexes (plexes_of config.now vol)) false (first_region block) (last_region block count) logs.old.fmr logs.new.fmr (S.meaning shelf.old) (S.meaning shelf.new) result }
    ensures keeps { FmrKeeps logs.old.fmr logs.new.fmr }
    ensures drl { logs.new.drl ≡ logs.old.drl }
{
    // Read for its bound: no block of a volume is past 2^64.
    let _end = blocks_of(config, vol);
    let first = block / REGION;
    let last = (block + count - 1) / REGION;
    miss_maps(&mut logs.fmr, shelf, plex_count(config, vol), first, last)
}

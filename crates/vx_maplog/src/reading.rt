// The map of a log as it is read.
ghost use Rattle.std.specs.Prelude.{◌≡◌, ◌+◌, ◌*◌, ◌<◌, ◌≤◌, IfErr, IfOk, IsFalse};
ghost use Rattle.vx_bitmap.specs.Maps.{IsRead, Lies, LoadCause, MapOn, map_block_count};
ghost use Rattle.vx_disk.specs.Moves.{Run, Settled};
ghost use Rattle.vx_disk.specs.Shelf.{Goes, Nothing};
ghost use Rattle.vx_maplog.specs.Logs.{DisksReach, HasLog, MapInRun, LogLoaded};

use crate::entry::log_of;
use std::alloc::Global;
use vx_bitmap::Bitmap;
use vx_config::{Config, VolumeLog};
use vx_disk::Shelf;
use vx_model::Stop;
use vx_model::limits::{MAP_REGIONS, MOST_MAP_BLOCKS};

// Reads the map in a run of blocks.
fn read_run<S: Shelf>(
    alloc: Global,
    shelf: &mut S,
    unit: u32,
    first: u64,
    blocks: u64,
) -> Result<Bitmap, Stop>
    requires some { 0 < blocks }
    requires exists { unit < (S.meaning shelf.old).units }
    requires within { first + blocks ≤ (S.meaning shelf.old).size unit }
    requires up { IsFalse (S.meaning shelf.old).down }
    ensures there { IfOk result (λ map. MapInRun unit first blocks map) }
    ensures read { IfOk result (λ map. IsRead map (S.meaning shelf.old)) }
    ensures stands { IfOk result (λ map. Settled (S.meaning shelf.old) (Run unit first (map_block_count map)) → MapOn map (S.meaning shelf.new)) }
    ensures goes { Goes Nothing (S.meaning shelf.old) (S.meaning shelf.new) }
    ensures cause { IfErr result (LoadCause (S.meaning shelf.old) (S.meaning shelf.new)) }
{
    if blocks > MOST_MAP_BLOCKS {
        return Err(Stop::OutOfMemory);
    }
    Bitmap::load(alloc, shelf, unit, first, MAP_REGIONS * blocks)
}

/// Reads the map of a log of a volume. It changes nothing. Where a crash leaves one value at most in each of its blocks, the map stands.
///
/// It takes the memory of the map's blocks; for a map of more than 65,536 blocks there is none. Refusal 7, where the device call failed.
pub fn load<S: Shelf>(
    alloc: Global,
    shelf: &mut S,
    config: &Config,
    volume: u32,
    log: VolumeLog,
) -> Result<Bitmap, Stop>
    requires has { HasLog config.now volume log }
    requires disks { DisksReach config.now.disks (S.meaning shelf.old) }
    requires up { IsFalse (S.meaning shelf.old).down }
    ensures loaded { IfOk result (λ map. LogLoaded config.now volume log map) }
    ensures lies { IfOk result (λ map. Lies map (S.meaning shelf.new)) }
    ensures read { IfOk result (λ map. IsRead map (S.meaning shelf.old)) }
    ensures stands { IfOk result (λ map. Settled (S.meaning shelf.old) (Run map.unit map.first (map_block_count map)) → MapOn map (S.meaning shelf.new)) }
    ensures goes { Goes Nothing (S.meaning shelf.old) (S.meaning shelf.new) }
    ensures cause { IfErr result (LoadCause (S.meaning shelf.old) (S.meaning shelf.new)) }
{
    match log_of(config, volume, log) {
        Some(entry) => read_run(
            alloc,
            shelf,
            u32::from(entry.disk),
            entry.start,
            entry.blocks,
        ),
        None => unreachable!(),
    }
}

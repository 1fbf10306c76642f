// A read of one plex, which is several runs of blocks.
ghost use Rattle.std.specs.Prelude.{◌≡◌, ◌/◌, ◌%◌, ◌<◌, IsTrue, IfOk, OnOk, length};
ghost use Rattle.vx_disk.specs.Shelf.{Goes, Nothing};
ghost use Rattle.vx_volume.specs.Plexes.{Asked, RunFits};
ghost use Rattle.vx_volume.specs.Steps.{ReadRun};
ghost use Rattle.vx_volume.specs.Volumes.{PlexCause, PlexRead};

use vx_config::Config;
use vx_disk::{Shelf, ShelfError};
use vx_layout::find_spot;
use vx_model::limits::BLOCK;

// One device call: as many of the blocks behind the first ones as lie one behind the other.
fn read_run<S: Shelf>(
    config: &Config,
    vol: u32,
    plex: u32,
    shelf: &mut S,
    block: u64,
    into: &mut [u8],
    done: u64,
) -> Result<u64, ShelfError>
    requires asked { Asked config.now vol plex block (length into.old / BLOCK) }
    requires fits { RunFits config.now vol plex block (length into.old / BLOCK) (S.meaning shelf.old) }
    requires whole { length into.old % BLOCK ≡ 0 }
    requires more { done < length into.old / BLOCK }
    ensures goes { Goes Nothing (S.meaning shelf.old) (S.meaning shelf.new) }
    ensures down { (S.meaning shelf.new).down ≡ (S.meaning shelf.old).down }
    ensures ok { IfOk result (λ count. ReadRun config.now vol plex block (length into.old / BLOCK) done count into.old into.new (S.meaning shelf.old)) }
    ensures cause { PlexCause config.now vol plex (S.meaning shelf.old) (S.meaning shelf.new) result }
{
    let total = (into.len() / BLOCK) as u64;
    let spot = find_spot(config, vol, plex, block + done);
    let count = spot.reach.min(total - done);
    let run = &mut into[BLOCK * done as usize..BLOCK * (done + count) as usize];
    match shelf.read(spot.disk, spot.at, run) {
        Ok(()) => Ok(count),
        Err(error) => Err(error),
    }
}

/// Reads a run of blocks of a volume from one plex.
pub fn read_plex<S: Shelf>(
    config: &Config,
    vol: u32,
    plex: u32,
    shelf: &mut S,
    block: u64,
    into: &mut [u8],
) -> Result<(), ShelfError>
    requires asked { Asked config.now vol plex block (length into.old / BLOCK) }
    requires fits { RunFits config.now vol plex block (length into.old / BLOCK) (S.meaning shelf.old) }
    requires whole { length into.old % BLOCK ≡ 0 }
    requires up { IsTrue (S.meaning shelf.old).down → ⊥ }
    ensures goes { Goes Nothing (S.meaning shelf.old) (S.meaning shelf.new) }
    ensures down { (S.meaning shelf.new).down ≡ (S.meaning shelf.old).down }
    ensures ok { OnOk result (PlexRead config.now vol plex block block (length into.old / BLOCK) into.new (S.meaning shelf.old)) }
    ensures cause { PlexCause config.now vol plex (S.meaning shelf.old) (S.meaning shelf.new) result }
{
    let total = (into.len() / BLOCK) as u64;
    let mut done = 0;
    while done < total {
        match read_run(config, vol, plex, shelf, block, into, done) {
            Ok(count) => done += count,
            Err(error) => return Err(error),
        }
    }
    Ok(())
}

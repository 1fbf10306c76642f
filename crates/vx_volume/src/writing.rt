// A write to one plex, which is several runs of blocks.
ghost use Rattle.std.specs.Prelude.{◌≡◌, ◌/◌, ◌%◌, ◌<◌, IsTrue, IfOk, OnOk, length};
ghost use Rattle.vx_disk.specs.Shelf.{Goes};
ghost use Rattle.vx_volume.specs.Plexes.{Asked, RunFits};
ghost use Rattle.vx_volume.specs.Steps.{WroteRun};
ghost use Rattle.vx_volume.specs.Volumes.{OnPlex, PlexCause, PlexWrote};

use vx_config::Config;
use vx_disk::{Shelf, ShelfError};
use vx_layout::find_spot;
use vx_model::limits::BLOCK;

// One device call: as many of the blocks behind the first ones as lie one behind the other.
fn write_run<S: Shelf>(
    config: &Config,
    vol: u32,
    plex: u32,
    shelf: &mut S,
    block: u64,
    bytes: &[u8],
    done: u64,
) -> Result<u64, ShelfError>
    requires asked { Asked config.now vol plex block (length bytes.now / BLOCK) }
    requires fits { RunFits config.now vol plex block (length bytes.now / BLOCK) (S.meaning shelf.old) }
    requires whole { length bytes.now % BLOCK ≡ 0 }
    requires more { done < length bytes.now / BLOCK }
    ensures goes { Goes (OnPlex config.now vol plex block (length bytes.now / BLOCK) bytes.now) (S.meaning shelf.old) (S.meaning shelf.new) }
    ensures ok { IfOk result (λ count. WroteRun config.now vol plex block (length bytes.now / BLOCK) done count bytes.now (S.meaning shelf.old) (S.meaning shelf.new)) }
    ensures cause { PlexCause config.now vol plex (S.meaning shelf.old) (S.meaning shelf.new) result }
{
    let total = (bytes.len() / BLOCK) as u64;
    let spot = find_spot(config, vol, plex, block + done);
    let count = spot.reach.min(total - done);
    let run = &bytes[BLOCK * done as usize..BLOCK * (done + count) as usize];
    match shelf.write(spot.disk, spot.at, run) {
        Ok(()) => Ok(count),
        Err(error) => Err(error),
    }
}

/// Writes a run of blocks of a volume to one plex.
pub fn write_plex<S: Shelf>(
    config: &Config,
    vol: u32,
    plex: u32,
    shelf: &mut S,
    block: u64,
    bytes: &[u8],
) -> Result<(), ShelfError>
    requires asked { Asked config.now vol plex block (length bytes.now / BLOCK) }
    requires fits { RunFits config.now vol plex block (length bytes.now / BLOCK) (S.meaning shelf.old) }
    requires whole { length bytes.now % BLOCK ≡ 0 }
    requires up { IsTrue (S.meaning shelf.old).down → ⊥ }
    ensures goes { Goes (OnPlex config.now vol plex block (length bytes.now / BLOCK) bytes.now) (S.meaning shelf.old) (S.meaning shelf.new) }
    ensures ok { OnOk result (PlexWrote config.now vol plex block (length bytes.now / BLOCK) block (length bytes.now / BLOCK) bytes.now (S.meaning shelf.old) (S.meaning shelf.new)) }
    ensures cause { PlexCause config.now vol plex (S.meaning shelf.old) (S.meaning shelf.new) result }
{
    let total = (bytes.len() / BLOCK) as u64;
    let mut done = 0;
    while done < total {
        match write_run(config, vol, plex, shelf, block, bytes, done) {
            Ok(count) => done += count,
            Err(error) => return Err(error),
        }
    }
    Ok(())
}

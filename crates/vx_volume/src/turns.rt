// A read that asks the plexes in turn.
ghost use Rattle.std.specs.Prelude.{◌≡◌, ◌/◌, ◌%◌, ◌<◌, ◌≤◌, IsTrue, length};
ghost use Rattle.vx_config.specs.Checks.{plexes_of};
ghost use Rattle.vx_disk.specs.Shelf.{Goes, Nothing};
ghost use Rattle.vx_volume.specs.Plexes.{SomeActive, VolumeFits};
ghost use Rattle.vx_volume.specs.Steps.{TurnsEnd};

use crate::plexes::{is_active, plex_count};
use crate::reading::read_plex;
use vx_config::Config;
use vx_disk::{Shelf, ShelfError};
use vx_model::No;
use vx_model::limits::{BLOCK, MOST_PLEXES};

/// Reads a run of blocks from the first plex, from this one on, that is ACTIVE and does not fail. Answers which it is.
pub fn read_in_turn<S: Shelf>(
    config: &Config,
    vol: u32,
    shelf: &mut S,
    block: u64,
    into: &mut [u8],
    first: u32,
) -> Result<u32, No>
    requires fits { VolumeFits config.now vol block (length into.old / BLOCK) (S.meaning shelf.old) }
    requires whole { length into.old % BLOCK ≡ 0 }
    requires some { SomeActive config.now vol }
    requires first { first < plexes_of config.now vol }
    requires few { plexes_of config.now vol ≤ MOST_PLEXES }
    requires up { IsTrue (S.meaning shelf.old).down → ⊥ }
    ensures goes { Goes Nothing (S.meaning shelf.old) (S.meaning shelf.new) }
    ensures down { (S.meaning shelf.new).down ≡ (S.meaning shelf.old).down }
    ensures ends { TurnsEnd config.now vol first block (length into.old / BLOCK) into.new (S.meaning shelf.old) (S.meaning shelf.new) result }
{
    let plexes = plex_count(config, vol);
    let mut device = 0;
    for turn in 0..plexes {
        let plex = (first + turn) % plexes;
        if is_active(config, vol, plex) {
            match read_plex(config, vol, plex, shelf, block, into) {
                Ok(()) => return Ok(plex),
                Err(ShelfError::Fault { disk }) => device = disk,
                Err(ShelfError::Down) => return Err(No::Down),
            }
        }
    }
    Err(No::Device { disk: device })
}

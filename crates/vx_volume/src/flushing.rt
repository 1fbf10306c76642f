// A flush of one plex, which is one of each disk that it uses.
ghost use Rattle.std.specs.Prelude.{◌≡◌, IsTrue, OnOk};
ghost use Rattle.vx_config.specs.Checks.{is_sound};
ghost use Rattle.vx_disk.specs.Shelf.{Goes, Nothing};
ghost use Rattle.vx_volume.specs.Plexes.{DisksFit, active};
ghost use Rattle.vx_volume.specs.Volumes.{PlexCause, PlexFlushed};

use crate::plexes::uses;
use vx_config::Config;
use vx_disk::{Shelf, ShelfError};

/// Makes a plex durable.
pub fn flush_plex<S: Shelf>(
    config: &Config,
    vol: u32,
    plex: u32,
    shelf: &mut S,
) -> Result<(), ShelfError>
    requires checked { IsTrue (is_sound config.now) }
    requires disks { DisksFit config.now.disks (S.meaning shelf.old) }
    requires is_on { IsTrue (active config.now vol plex) }
    requires up { IsTrue (S.meaning shelf.old).down → ⊥ }
    ensures goes { Goes Nothing (S.meaning shelf.old) (S.meaning shelf.new) }
    ensures ok { OnOk result (PlexFlushed config.now vol plex (S.meaning shelf.old) (S.meaning shelf.new)) }
    ensures cause { PlexCause config.now vol plex (S.meaning shelf.old) (S.meaning shelf.new) result }
{
    for disk in 0..config.disks.as_slice().len() as u32 {
        if uses(config, vol, plex, disk) {
            match shelf.flush(disk) {
                Ok(()) => {}
                Err(error) => return Err(error),
            }
        }
    }
    Ok(())
}

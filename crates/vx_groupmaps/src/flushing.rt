// The plexes of a volume that go by their maps, made durable before the group is deported.
ghost use Rattle.std.specs.Prelude.{◌≡◌, IsTrue, OnOk};
ghost use Rattle.vx_config.specs.Checks.{is_sound};
ghost use Rattle.vx_disk.specs.Shelf.{Goes, Nothing};
ghost use Rattle.vx_groupmaps.specs.Flushing.{MappedEnds};
ghost use Rattle.vx_groupmaps.specs.Missing.{by_map as by_map_is};
ghost use Rattle.vx_volume.specs.Plexes.{DisksFit};
ghost use Rattle.vx_volume.specs.Volumes.{PlexCause, PlexFlushed};

use vx_config::{Config, PlexState};
use vx_disk::{Shelf, ShelfError};
use vx_model::No;
use vx_model::limits::MOST_PLEXES;
use vx_volume::{set_of, uses};

/// Whether a plex is STALE, and the next attach copies the regions of its map alone.
#[tactic(auto, unfolding(crate::specs::Missing::by_map))]
pub fn goes_by_map(config: &Config, vol: u32, plex: u32) -> bool
    ensures { result ≡ by_map_is config.now vol plex }
{
    match config.volumes.as_slice().get(vol as usize) {
        Some(volume) => match volume.plexes.as_slice().get(plex as usize) {
            Some(plex) => match plex.state {
                PlexState::Active => false,
                PlexState::Clean => false,
                PlexState::Stale => !plex.whole,
            },
            None => false,
        },
        None => false,
    }
}

// Makes a plex durable: each disk that it uses.
fn flush_one<S: Shelf>(
    config: &Config,
    vol: u32,
    plex: u32,
    shelf: &mut S,
) -> Result<(), ShelfError>
    requires checked { IsTrue (is_sound config.now) }
    requires disks { DisksFit config.now.disks (S.meaning shelf.old) }
    requires mapped { IsTrue (by_map_is config.now vol plex) }
    requires up { IsTrue (S.meaning shelf.old).down → ⊥ }
    ensures goes { Goes Nothing (S.meaning shelf.old) (S.meaning shelf.new) }
    ensures ok { OnOk result (PlexFlushed config.now vol plex (S.meaning shelf.old) (S.meaning shelf.new)) }
    ensures cause { PlexCause config.now vol plex (S.meaning shelf.old) (S.meaning shelf.new) result }
{
    for disk in 0..config.disks.as_slice().len() as u32 {
        if uses(config, vol, plex, disk) {
            match shelf.flush(disk) {
                Ok(()) => {}
                Err(error) => return Err(error),
            }
        }
    }
    Ok(())
}

/// Makes each plex of a volume that goes by its map durable, so that a crash leaves of it what it reads. Answers the plexes of which a disk
/// failed, with bit P for plex P: these may be copied by their maps no more. Refusal 6, where the shelf is down.
pub fn flush_mapped<S: Shelf>(config: &Config, vol: u32, shelf: &mut S) -> Result<u8, No>
    requires checked { IsTrue (is_sound config.now) }
    requires disks { DisksFit config.now.disks (S.meaning shelf.old) }
    requires up { IsTrue (S.meaning shelf.old).down → ⊥ }
    ensures goes { Goes Nothing (S.meaning shelf.old) (S.meaning shelf.new) }
    ensures ends { MappedEnds config.now vol (S.meaning shelf.old) (S.meaning shelf.new) result }
{
    let mut failed = [false; MOST_PLEXES];
    for plex in 0..MOST_PLEXES as u32 {
        if goes_by_map(config, vol, plex) {
            match flush_one(config, vol, plex, shelf) {
                Ok(()) => {}
                Err(ShelfError::Fault { .. }) => failed[plex as usize] = true,
                Err(ShelfError::Down) => return Err(No::Down),
            }
        }
    }
    Ok(set_of(&failed))
}

// Writes and flushes of every plex of a volume that is ACTIVE.
ghost use Rattle.std.specs.Prelude.{◌≡◌, ◌/◌, ◌%◌, IsTrue, length};
ghost use Rattle.vx_config.specs.Checks.{is_sound};
ghost use Rattle.vx_disk.specs.Shelf.{Goes, Nothing};
ghost use Rattle.vx_volume.specs.Plexes.{Apart, DisksFit, SomeActive, VolumeFits, active};
ghost use Rattle.vx_volume.specs.Steps.{FlagsEnd};
ghost use Rattle.vx_volume.specs.Volumes.{OnPlexes, PlexFlushed, PlexWrote};

use crate::flushing::flush_plex;
use crate::plexes::is_active;
use crate::writing::write_plex;
use vx_config::Config;
use vx_disk::{Shelf, ShelfError};
use vx_model::No;
use vx_model::limits::{BLOCK, MOST_PLEXES};

/// Which plexes failed, and the disk of the last device call that did.
#[derive(Clone, Copy, Drop)]
pub struct Flags {
    pub failed: [bool; MOST_PLEXES],
    pub device: u32,
}

/// Writes a run of blocks to every plex that is ACTIVE. Answers which of them failed.
pub fn write_plexes<S: Shelf>(
    config: &Config,
    vol: u32,
    shelf: &mut S,
    block: u64,
    bytes: &[u8],
) -> Result<Flags, No>
    requires fits { VolumeFits config.now vol block (length bytes.now / BLOCK) (S.meaning shelf.old) }
    requires whole { length bytes.now % BLOCK ≡ 0 }
    requires some { SomeActive config.now vol }
    requires up { IsTrue (S.meaning shelf.old).down → ⊥ }
    ensures goes { Goes (OnPlexes config.now vol block (length bytes.now / BLOCK) bytes.now) (S.meaning shelf.old) (S.meaning shelf.new) }
    ensures ends { FlagsEnd config.now vol (λ p. PlexWrote config.now vol p block (length bytes.now / BLOCK) block (length bytes.now / BLOCK) bytes.now (S.meaning shelf.old) (S.meaning shelf.new)) (S.meaning shelf.old) (S.meaning shelf.new) result }
{
    let mut failed = [false; MOST_PLEXES];
    let mut done = false;
    let mut device = 0;
    for plex in 0..MOST_PLEXES as u32 {
        if is_active(config, vol, plex) {
            match write_plex(config, vol, plex, shelf, block, bytes) {
                Ok(()) => done = true,
                Err(ShelfError::Fault { disk }) => {
                    failed[plex as usize] = true;
                    device = disk;
                }
                Err(ShelfError::Down) => return Err(No::Down),
            }
        }
    }
    if done {
        Ok(Flags { failed, device })
    } else {
        Err(No::Device { disk: device })
    }
}

/// Makes every plex that is ACTIVE durable. Answers which of them failed.
pub fn flush_plexes<S: Shelf>(config: &Config, vol: u32, shelf: &mut S) -> Result<Flags, No>
    requires checked { IsTrue (is_sound config.now) }
    requires disks { DisksFit config.now.disks (S.meaning shelf.old) }
    requires some { SomeActive config.now vol }
    requires up { IsTrue (S.meaning shelf.old).down → ⊥ }
    ensures goes { Goes Nothing (S.meaning shelf.old) (S.meaning shelf.new) }
    ensures ends { FlagsEnd config.now vol (λ p. PlexFlushed config.now vol p (S.meaning shelf.old) (S.meaning shelf.new)) (S.meaning shelf.old) (S.meaning shelf.new) result }
{
    let mut failed = [false; MOST_PLEXES];
    let mut done = false;
    let mut device = 0;
    for plex in 0..MOST_PLEXES as u32 {
        if is_active(config, vol, plex) {
            match flush_plex(config, vol, plex, shelf) {
                Ok(()) => done = true,
                Err(ShelfError::Fault { disk }) => {
                    failed[plex as usize] = true;
                    device = disk;
                }
                Err(ShelfError::Down) => return Err(No::Down),
            }
        }
    }
    if done {
        Ok(Flags { failed, device })
    } else {
        Err(No::Device { disk: device })
    }
}

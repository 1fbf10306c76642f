// A plex that is copied to another one.
ghost use Rattle.std.specs.Prelude.{◌≡◌, ◌≢◌, ◌+◌, ◌*◌, ◌<◌, ◌≤◌, length, IsTrue, OnOk};
ghost use Rattle.vx_config.specs.Checks.{blocks_of as blocks_of_is, is_sound};
ghost use Rattle.vx_disk.specs.Shelf.{Goes};
ghost use Rattle.vx_volume.specs.Copies.{CopyBelow, CopyCause, CopyRun, IsCopied, OnCopy};
ghost use Rattle.vx_volume.specs.Plexes.{DisksFit, active};

use crate::flushing::flush_plex;
use crate::reading::read_plex;
use crate::writing::write_plex;
use vx_config::{Config, blocks_of};
use vx_disk::{Shelf, ShelfError};
use vx_model::limits::{BLOCK, MOST_CALL_BLOCKS, MOST_CALL_BYTES};

// Copies a run of blocks.
fn copy_run<S: Shelf>(
    config: &Config,
    vol: u32,
    source: u32,
    plex: u32,
    shelf: &mut S,
    block: u64,
    count: u64,
    run: &mut [u8],
) -> Result<(), ShelfError>
    requires checked { IsTrue (is_sound config.now) }
    requires volume { vol < length config.now.volumes }
    requires within { block + count ≤ blocks_of_is config.now.volumes vol }
    requires long { length run.old ≡ BLOCK * count }
    requires from { IsTrue (active config.now vol source) }
    requires to { IsTrue (active config.now vol plex) }
    requires disks { DisksFit config.now.disks (S.meaning shelf.old) }
    requires up { IsTrue (S.meaning shelf.old).down → ⊥ }
    ensures within { block + count ≤ blocks_of_is config.now.volumes vol }
    ensures goes { Goes (OnCopy config.now vol plex) (S.meaning shelf.old) (S.meaning shelf.new) }
    ensures ok { OnOk result (CopyRun config.now vol source plex block count (S.meaning shelf.old) (S.meaning shelf.new)) }
    ensures cause { CopyCause config.now vol source plex (S.meaning shelf.old) (S.meaning shelf.new) result }
{
    // Read for its bound: no block of a volume is past 2^64.
    blocks_of(config, vol);
    match read_plex(config, vol, source, shelf, block, run) {
        Ok(()) => {}
        Err(error) => return Err(error),
    }
    write_plex(config, vol, plex, shelf, block, run)
}

// Copies all blocks.
fn copy_blocks<S: Shelf>(
    config: &Config,
    vol: u32,
    source: u32,
    plex: u32,
    shelf: &mut S,
) -> Result<(), ShelfError>
    requires checked { IsTrue (is_sound config.now) }
    requires volume { vol < length config.now.volumes }
    requires from { IsTrue (active config.now vol source) }
    requires to { IsTrue (active config.now vol plex) }
    requires apart { source ≢ plex }
    requires disks { DisksFit config.now.disks (S.meaning shelf.old) }
    requires up { IsTrue (S.meaning shelf.old).down → ⊥ }
    ensures goes { Goes (OnCopy config.now vol plex) (S.meaning shelf.old) (S.meaning shelf.new) }
    ensures ok { OnOk result (CopyBelow config.now vol source plex (blocks_of_is config.now.volumes vol) (S.meaning shelf.old) (S.meaning shelf.new)) }
    ensures cause { CopyCause config.now vol source plex (S.meaning shelf.old) (S.meaning shelf.new) result }
{
    let blocks = blocks_of(config, vol);
    let mut buffer = [0; MOST_CALL_BYTES];
    let mut done = 0;
    while done < blocks {
        let count = (blocks - done).min(MOST_CALL_BLOCKS);
        let run = &mut buffer[..BLOCK * count as usize];
        match copy_run(config, vol, source, plex, shelf, done, count, run) {
            Ok(()) => done += count,
            Err(error) => return Err(error),
        }
    }
    Ok(())
}

/// Copies all blocks of a volume from one of its plexes that are ACTIVE to another one, and makes them durable: after it a crash leaves of
/// that plex what a read of the first one gave.
///
/// Answers a fault only where a call on a disk of one of the two failed. It takes no memory.
pub fn copy_plex<S: Shelf>(
    config: &Config,
    vol: u32,
    source: u32,
    plex: u32,
    shelf: &mut S,
) -> Result<(), ShelfError>
    requires checked { IsTrue (is_sound config.now) }
    requires volume { vol < length config.now.volumes }
    requires from { IsTrue (active config.now vol source) }
    requires to { IsTrue (active config.now vol plex) }
    requires apart { source ≢ plex }
    requires disks { DisksFit config.now.disks (S.meaning shelf.old) }
    requires up { IsTrue (S.meaning shelf.old).down → ⊥ }
    ensures goes { Goes (OnCopy config.now vol plex) (S.meaning shelf.old) (S.meaning shelf.new) }
    ensures ok { OnOk result (IsCopied config.now vol source plex (S.meaning shelf.old) (S.meaning shelf.new)) }
    ensures cause { CopyCause config.now vol source plex (S.meaning shelf.old) (S.meaning shelf.new) result }
{
    match copy_blocks(config, vol, source, plex, shelf) {
        Ok(()) => {}
        Err(error) => return Err(error),
    }
    flush_plex(config, vol, plex, shelf)
}

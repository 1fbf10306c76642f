// Zeros on the plexes of a new volume.
ghost use Rattle.std.specs.Prelude.{◌+◌, ◌*◌, ◌<◌, ◌≤◌, length, IsTrue, OnOk};
ghost use Rattle.vx_config.specs.Checks.{blocks_of as blocks_of_is, is_sound};
ghost use Rattle.vx_disk.specs.Shelf.{Goes, Nothing};
ghost use Rattle.vx_volume.specs.Plexes.{DisksFit, SomeActive};
ghost use Rattle.vx_group.specs.Blames.{Blames};
ghost use Rattle.vx_group.specs.Makes.{AreZero, ZeroBelow, ZeroRun, ZerosOn};
ghost use Rattle.vx_group.specs.Moves.{AllFlushed};

use crate::detaching::fault_of;
use vx_config::{Config, blocks_of};
use vx_disk::{Shelf, ShelfError};
use vx_model::limits::{BLOCK, MOST_CALL_BLOCKS, MOST_CALL_BYTES};
use vx_volume::{flush_all, write_all};

// Writes zeros to a run of blocks on each plex that is ACTIVE.
fn zero_run<S: Shelf>(
    shelf: &mut S,
    config: &Config,
    vol: u32,
    block: u64,
    count: u64,
) -> Result<(), ShelfError>
    requires checked { IsTrue (is_sound config.now) }
    requires volume { vol < length config.now.volumes }
    requires within { block + count ≤ blocks_of_is config.now.volumes vol }
    requires few { count ≤ MOST_CALL_BLOCKS }
    requires some { SomeActive config.now vol }
    requires disks { DisksFit config.now.disks (S.meaning shelf.old) }
    requires up { IsTrue (S.meaning shelf.old).down → ⊥ }
    ensures within { block + count ≤ blocks_of_is config.now.volumes vol }
    ensures goes { Goes (ZerosOn config.now vol) (S.meaning shelf.old) (S.meaning shelf.new) }
    ensures ok { OnOk result (ZeroRun config.now vol block count (S.meaning shelf.old) (S.meaning shelf.new)) }
    ensures cause { Blames (S.meaning shelf.old) (S.meaning shelf.new) result }
{
    let zeros = [0; MOST_CALL_BYTES];
    match write_all(config, vol, shelf, block, &zeros[..BLOCK * count as usize]) {
        Ok(failed) => {
            if failed.set == 0 {
                return Ok(());
            }
            Err(ShelfError::Fault { disk: failed.disk })
        }
        Err(no) => Err(fault_of(no, 0)),
    }
}

// Writes zeros to each block.
fn zero_blocks<S: Shelf>(shelf: &mut S, config: &Config, vol: u32) -> Result<(), ShelfError>
    requires checked { IsTrue (is_sound config.now) }
    requires volume { vol < length config.now.volumes }
    requires some { SomeActive config.now vol }
    requires disks { DisksFit config.now.disks (S.meaning shelf.old) }
    requires up { IsTrue (S.meaning shelf.old).down → ⊥ }
    ensures goes { Goes (ZerosOn config.now vol) (S.meaning shelf.old) (S.meaning shelf.new) }
    ensures ok { OnOk result (ZeroBelow config.now vol (blocks_of_is config.now.volumes vol) (S.meaning shelf.new)) }
    ensures cause { Blames (S.meaning shelf.old) (S.meaning shelf.new) result }
{
    let blocks = blocks_of(config, vol);
    let mut done = 0;
    while done < blocks {
        let count = (blocks - done).min(MOST_CALL_BLOCKS);
        match zero_run(shelf, config, vol, done, count) {
            Ok(()) => done += count,
            Err(error) => return Err(error),
        }
    }
    Ok(())
}

// Flushes each plex that is ACTIVE; one that fails is a fault.
fn flush_each<S: Shelf>(shelf: &mut S, config: &Config, vol: u32) -> Result<(), ShelfError>
    requires checked { IsTrue (is_sound config.now) }
    requires some { SomeActive config.now vol }
    requires disks { DisksFit config.now.disks (S.meaning shelf.old) }
    requires up { IsTrue (S.meaning shelf.old).down → ⊥ }
    ensures goes { Goes Nothing (S.meaning shelf.old) (S.meaning shelf.new) }
    ensures ok { OnOk result (AllFlushed config.now vol (S.meaning shelf.old) (S.meaning shelf.new)) }
    ensures cause { Blames (S.meaning shelf.old) (S.meaning shelf.new) result }
{
    match flush_all(config, vol, shelf) {
        Ok(failed) => {
            if failed.set == 0 {
                return Ok(());
            }
            Err(ShelfError::Fault { disk: failed.disk })
        }
        Err(no) => Err(fault_of(no, 0)),
    }
}

/// Writes zeros to each block of each plex that is ACTIVE, and flushes them. A plex that fails is a fault.
pub fn zero_volume<S: Shelf>(shelf: &mut S, config: &Config, vol: u32) -> Result<(), ShelfError>
    requires checked { IsTrue (is_sound config.now) }
    requires volume { vol < length config.now.volumes }
    requires some { SomeActive config.now vol }
    requires disks { DisksFit config.now.disks (S.meaning shelf.old) }
    requires up { IsTrue (S.meaning shelf.old).down → ⊥ }
    ensures goes { Goes (ZerosOn config.now vol) (S.meaning shelf.old) (S.meaning shelf.new) }
    ensures ok { OnOk result (AreZero config.now vol (S.meaning shelf.new)) }
    ensures cause { Blames (S.meaning shelf.old) (S.meaning shelf.new) result }
{
    match zero_blocks(shelf, config, vol) {
        Ok(()) => {}
        Err(error) => return Err(error),
    }
    flush_each(shelf, config, vol)
}

// A run of blocks that is written to the plexes that are copied to.
ghost use Rattle.std.specs.Prelude.{◌≡◌, ◌+◌, ◌/◌, ◌%◌, ◌≤◌, ◌<◌, ◌^◌, IfErr, IsTrue, OnOk, None, Some, length};
ghost use Rattle.vx_config.specs.Checks.{blocks_of as blocks_of_is, is_sound};
ghost use Rattle.vx_disk.specs.Causes.{DeviceCause};
ghost use Rattle.vx_disk.specs.Shelf.{Goes};
ghost use Rattle.vx_resync.specs.Copies.{OnTargets, TargetsActive, TargetsWrote};
ghost use Rattle.vx_resync.specs.Gathers.{TargetRefused};
ghost use Rattle.vx_volume.specs.Plexes.{Asked, DisksFit, RunFits, SomeActive};

use vx_config::Config;
use vx_disk::{Shelf, refusal};
use vx_model::No;
use vx_model::limits::BLOCK;
use vx_volume::{write_all, write_plex};

fn put_one<S: Shelf>(
    config: &Config,
    vol: u32,
    plex: u32,
    shelf: &mut S,
    block: u64,
    bytes: &[u8],
) -> Result<(), No>
    requires asked { Asked config.now vol plex block (length bytes.now / BLOCK) }
    requires fits { RunFits config.now vol plex block (length bytes.now / BLOCK) (S.meaning shelf.old) }
    requires whole { length bytes.now % BLOCK ≡ 0 }
    requires up { IsTrue (S.meaning shelf.old).down → ⊥ }
    ensures goes { Goes (OnTargets config.now vol (Some plex) block (length bytes.now / BLOCK) bytes.now) (S.meaning shelf.old) (S.meaning shelf.new) }
    ensures ok { OnOk result (TargetsWrote config.now vol (Some plex) block (length bytes.now / BLOCK) bytes.now (S.meaning shelf.old) (S.meaning shelf.new)) }
    ensures cause { IfErr result (DeviceCause (S.meaning shelf.old) (S.meaning shelf.new)) }
    ensures blamed { TargetRefused config.now vol (Some plex) (S.meaning shelf.old) (S.meaning shelf.new) result }
{
    match write_plex(config, vol, plex, shelf, block, bytes) {
        Ok(()) => Ok(()),
        Err(error) => Err(refusal(error)),
    }
}

fn put_all<S: Shelf>(
    config: &Config,
    vol: u32,
    shelf: &mut S,
    block: u64,
    bytes: &[u8],
) -> Result<(), No>
    requires checked { IsTrue (is_sound config.now) }
    requires volume { vol < length config.now.volumes }
    requires within { block + length bytes.now / BLOCK ≤ blocks_of_is config.now.volumes vol }
    requires whole { length bytes.now % BLOCK ≡ 0 }
    requires some { SomeActive config.now vol }
    requires disks { DisksFit config.now.disks (S.meaning shelf.old) }
    requires up { IsTrue (S.meaning shelf.old).down → ⊥ }
    ensures goes { Goes (OnTargets config.now vol None block (length bytes.now / BLOCK) bytes.now) (S.meaning shelf.old) (S.meaning shelf.new) }
    ensures ok { OnOk result (TargetsWrote config.now vol None block (length bytes.now / BLOCK) bytes.now (S.meaning shelf.old) (S.meaning shelf.new)) }
    ensures cause { IfErr result (DeviceCause (S.meaning shelf.old) (S.meaning shelf.new)) }
{
    match write_all(config, vol, shelf, block, bytes) {
        Ok(failed) => {
            if failed.set == 0 {
                Ok(())
            } else {
                Err(No::Device { disk: failed.disk })
            }
        }
        Err(no) => Err(no),
    }
}

/// Writes a run of blocks of a volume to one plex alone, or to each that is ACTIVE.
pub fn put_run<S: Shelf>(
    config: &Config,
    vol: u32,
    to: Option<u32>,
    shelf: &mut S,
    block: u64,
    bytes: &[u8],
) -> Result<(), No>
    requires checked { IsTrue (is_sound config.now) }
    requires volume { vol < length config.now.volumes }
    requires within { block + length bytes.now / BLOCK ≤ blocks_of_is config.now.volumes vol }
    requires end { block + length bytes.now / BLOCK < 2 ^ 64 }
    requires whole { length bytes.now % BLOCK ≡ 0 }
    requires some { SomeActive config.now vol }
    requires active { TargetsActive config.now vol to }
    requires disks { DisksFit config.now.disks (S.meaning shelf.old) }
    requires up { IsTrue (S.meaning shelf.old).down → ⊥ }
    ensures goes { Goes (OnTargets config.now vol to block (length bytes.now / BLOCK) bytes.now) (S.meaning shelf.old) (S.meaning shelf.new) }
    ensures ok { OnOk result (TargetsWrote config.now vol to block (length bytes.now / BLOCK) bytes.now (S.meaning shelf.old) (S.meaning shelf.new)) }
    ensures cause { IfErr result (DeviceCause (S.meaning shelf.old) (S.meaning shelf.new)) }
    ensures blamed { TargetRefused config.now vol to (S.meaning shelf.old) (S.meaning shelf.new) result }
{
    match to {
        Some(plex) => put_one(config, vol, plex, shelf, block, bytes),
        None => put_all(config, vol, shelf, block, bytes),
    }
}

// A run of blocks that is copied.
ghost use Rattle.std.specs.Prelude.{◌≡◌, ◌+◌, ◌/◌, ◌%◌, ◌≤◌, ◌<◌, ◌^◌, IfErr, OnOk, length};
ghost use Rattle.vx_config.specs.Checks.{blocks_of as blocks_of_is};
ghost use Rattle.vx_disk.specs.Causes.{DeviceCause};
ghost use Rattle.vx_disk.specs.Shelf.{Goes};
ghost use Rattle.vx_resync.specs.Copies.{FromPlex, CanCopy, ReadAlike};
ghost use Rattle.vx_resync.specs.Gathers.{CopyRefused};
ghost use Rattle.vx_volume.specs.Plexes.{InRun};

use crate::putting::put_run;
use vx_config::Config;
use vx_disk::{Shelf, refusal};
use vx_model::No;
use vx_model::limits::BLOCK;
use vx_volume::read_plex;

/// Reads a run of blocks of a volume from one plex, once, and writes what was read to one other, or to each that is ACTIVE.
pub fn copy_run<S: Shelf>(
    config: &Config,
    vol: u32,
    source: u32,
    to: Option<u32>,
    shelf: &mut S,
    block: u64,
    bytes: &mut [u8],
) -> Result<(), No>
    requires ready { CanCopy config.now vol source to (S.meaning shelf.old) }
    requires within { block + length bytes.old / BLOCK ≤ blocks_of_is config.now.volumes vol }
    requires end { block + length bytes.old / BLOCK < 2 ^ 64 }
    requires whole { length bytes.old % BLOCK ≡ 0 }
    ensures goes { Goes (FromPlex config.now vol source to (InRun block (length bytes.old / BLOCK)) (S.meaning shelf.old)) (S.meaning shelf.old) (S.meaning shelf.new) }
    ensures ok { OnOk result (ReadAlike config.now vol source to (InRun block (length bytes.old / BLOCK)) (S.meaning shelf.old) (S.meaning shelf.new)) }
    ensures cause { IfErr result (DeviceCause (S.meaning shelf.old) (S.meaning shelf.new)) }
    ensures blamed { CopyRefused config.now vol source to (S.meaning shelf.old) (S.meaning shelf.new) result }
{
    match read_plex(config, vol, source, shelf, block, bytes) {
        Ok(()) => put_run(config, vol, to, shelf, block, bytes),
        Err(error) => Err(refusal(error)),
    }
}

// A plex that takes the regions that it has missed from one other.
ghost use Rattle.std.specs.Prelude.{◌≡◌, ◌<◌, IfErr, IfOk, IsTrue, OnOk, Some, length};
ghost use Rattle.std.specs.Option.{option_copied};
ghost use Rattle.vx_config.specs.Checks.{blocks_of as blocks_of_is, is_sound};
ghost use Rattle.vx_disk.specs.Causes.{DeviceCause};
ghost use Rattle.vx_disk.specs.Shelf.{Goes};
ghost use Rattle.vx_model.specs.Sizes.{regions_of};
ghost use Rattle.vx_resync.specs.Copies.{FromPlex, LeftAlike};
ghost use Rattle.vx_resync.specs.Gathers.{CopyRefused, MissesOnly};
ghost use Rattle.vx_resync.specs.Picks.{FmrReaches, InPicked, missed_or, picked_below};
ghost use Rattle.vx_volume.specs.Copies.{IsCopied};
ghost use Rattle.vx_volume.specs.Plexes.{DisksFit, active};

use crate::flushing::flush_targets;
use crate::regions::copy_regions;
use vx_config::Config;
use vx_disk::Shelf;
use vx_fmr::Fmr;
use vx_model::No;

/// Copies the regions that a plex has missed, or all where there is no map, from another plex that is ACTIVE to this one, and makes the
/// plex durable. Answers how many regions it copied. Where the plex has missed these regions alone, a crash leaves of it what the other one
/// read.
///
/// No other block of the plex and no other plex gets a value. Refusals: 7 where a call on a disk of one of the two plexes failed, and 6 where
/// the shelf is down; behind them each block of these regions of the plex is as it was, or as the other plex had it.
pub fn attach_from<S: Shelf>(
    config: &Config,
    vol: u32,
    source: u32,
    plex: u32,
    fmr: Option<&Fmr>,
    shelf: &mut S,
) -> Result<u64, No>
    requires checked { IsTrue (is_sound config.now) }
    requires volume { vol < length config.now.volumes }
    requires from { IsTrue (active config.now vol source) }
    requires to { IsTrue (active config.now vol plex) }
    requires disks { DisksFit config.now.disks (S.meaning shelf.old) }
    requires up { IsTrue (S.meaning shelf.old).down → ⊥ }
    requires reach { FmrReaches (regions_of (blocks_of_is config.now.volumes vol)) plex (option_copied fmr) }
    ensures moved { Goes (FromPlex config.now vol source (Some plex) (InPicked (missed_or plex (option_copied fmr.entry))) (S.meaning shelf.old)) (S.meaning shelf.old) (S.meaning shelf.new) }
    ensures done { OnOk result (LeftAlike config.now vol source (Some plex) (InPicked (missed_or plex (option_copied fmr.entry))) (S.meaning shelf.old) (S.meaning shelf.new)) }
    ensures copied { MissesOnly config.now vol source plex (missed_or plex (option_copied fmr.entry)) (S.meaning shelf.old) → OnOk result (IsCopied config.now vol source plex (S.meaning shelf.old) (S.meaning shelf.new)) }
    ensures count { IfOk result (λ n. n ≡ picked_below (missed_or plex (option_copied fmr.entry)) (regions_of (blocks_of_is config.now.volumes vol))) }
    ensures cause { IfErr result (DeviceCause (S.meaning shelf.old) (S.meaning shelf.new)) }
    ensures blamed { CopyRefused config.now vol source (Some plex) (S.meaning shelf.old) (S.meaning shelf.new) result }
{
    match copy_regions(config, vol, source, Some(plex), None, fmr, shelf) {
        Ok(copied) => match flush_targets(config, vol, Some(plex), shelf) {
            Ok(()) => Ok(copied),
            Err(no) => Err(no),
        },
        Err(no) => Err(no),
    }
}

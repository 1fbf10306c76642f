// The two resynchronisations: after an unclean stop, and of a plex that was detached.
ghost use Rattle.std.specs.Prelude.{◌≡◌, ◌<◌, IfErr, IfOk, IsTrue, OnOk, None, Some, length};
ghost use Rattle.std.specs.Option.{option_copied};
ghost use Rattle.vx_config.specs.Checks.{blocks_of as blocks_of_is, is_sound};
ghost use Rattle.vx_disk.specs.Causes.{DeviceCause};
ghost use Rattle.vx_model.specs.Sizes.{regions_of};
ghost use Rattle.vx_resync.specs.Copies.{Resynced, Resyncs, TargetsActive};
ghost use Rattle.vx_resync.specs.Picks.{DrlReaches, FmrReaches, MapsReach, is_picked, marked_or, missed_or, picked_below};
ghost use Rattle.vx_resync.specs.Sources.{HasSource};
ghost use Rattle.vx_volume.specs.Plexes.{DisksFit, SomeActive, active as active_is};

use crate::flushing::flush_targets;
use crate::gathering::attach_from;
use crate::regions::copy_regions;
use crate::sources::find_source;
use vx_config::Config;
use vx_disk::Shelf;
use vx_drl::Drl;
use vx_fmr::Fmr;
use vx_model::No;

fn resync<S: Shelf>(
    config: &Config,
    vol: u32,
    to: Option<u32>,
    drl: Option<&Drl>,
    fmr: Option<&Fmr>,
    shelf: &mut S,
) -> Result<u64, No>
    requires checked { IsTrue (is_sound config.now) }
    requires volume { vol < length config.now.volumes }
    requires some { HasSource config.now vol to }
    requires active { TargetsActive config.now vol to }
    requires disks { DisksFit config.now.disks (S.meaning shelf.old) }
    requires up { IsTrue (S.meaning shelf.old).down → ⊥ }
    requires reach { MapsReach (regions_of (blocks_of_is config.now.volumes vol)) to (option_copied drl) (option_copied fmr) }
    ensures moved { Resyncs config.now vol to (is_picked to (option_copied drl.entry) (option_copied fmr.entry)) (S.meaning shelf.old) (S.meaning shelf.new) }
    ensures done { OnOk result (Resynced config.now vol to (is_picked to (option_copied drl.entry) (option_copied fmr.entry)) (S.meaning shelf.old) (S.meaning shelf.new)) }
    ensures count { IfOk result (λ n. n ≡ picked_below (is_picked to (option_copied drl.entry) (option_copied fmr.entry)) (regions_of (blocks_of_is config.now.volumes vol))) }
    ensures cause { IfErr result (DeviceCause (S.meaning shelf.old) (S.meaning shelf.new)) }
{
    let source = find_source(config, vol, to);
    match copy_regions(config, vol, source, to, drl, fmr, shelf) {
        Ok(copied) => match flush_targets(config, vol, to, shelf) {
            Ok(()) => Ok(copied),
            Err(no) => Err(no),
        },
        Err(no) => Err(no),
    }
}

/// Copies the regions that are marked in the log, or all where there is none, from the first plex that is ACTIVE to each that is, itself
/// too, and makes them durable. Answers how many regions it copied.
///
/// No other block gets a value. Refusals: 7 where a device call failed, which may be one on any of these plexes, and 6 where the shelf is
/// down; behind them each block of these regions is as it was, or as the first plex had it.
pub fn recover<S: Shelf>(vol: u32, c: &Config, drl: Option<&Drl>, shelf: &mut S) -> Result<u64, No>
    requires checked { IsTrue (is_sound c.now) }
    requires volume { vol < length c.now.volumes }
    requires some { SomeActive c.now vol }
    requires disks { DisksFit c.now.disks (S.meaning shelf.old) }
    requires up { IsTrue (S.meaning shelf.old).down → ⊥ }
    requires reach { DrlReaches (regions_of (blocks_of_is c.now.volumes vol)) (option_copied drl) }
    ensures moved { Resyncs c.now vol None (marked_or (option_copied drl.entry)) (S.meaning shelf.old) (S.meaning shelf.new) }
    ensures done { OnOk result (Resynced c.now vol None (marked_or (option_copied drl.entry)) (S.meaning shelf.old) (S.meaning shelf.new)) }
    ensures count { IfOk result (λ n. n ≡ picked_below (marked_or (option_copied drl.entry)) (regions_of (blocks_of_is c.now.volumes vol))) }
    ensures cause { IfErr result (DeviceCause (S.meaning shelf.old) (S.meaning shelf.new)) }
{
    resync(c, vol, None, drl, None, shelf)
}

/// Copies the regions that a plex has missed, or all where there is no map, from the first other plex that is ACTIVE to this one, and makes
/// them durable. Answers how many regions it copied. The plex is ACTIVE in the configuration that is handed in; the caller commits that
/// configuration behind an Ok.
///
/// No other block of the plex and no other plex gets a value. Refusals: 7 where a device call failed, and 6 where the shelf is down; behind
/// them each block of these regions of the plex is as it was, or as the other plex had it.
pub fn attach<S: Shelf>(
    vol: u32,
    c: &Config,
    fmr: Option<&Fmr>,
    plex: u32,
    shelf: &mut S,
) -> Result<u64, No>
    requires checked { IsTrue (is_sound c.now) }
    requires volume { vol < length c.now.volumes }
    requires is_on { IsTrue (active_is c.now vol plex) }
    requires some { HasSource c.now vol (Some plex) }
    requires disks { DisksFit c.now.disks (S.meaning shelf.old) }
    requires up { IsTrue (S.meaning shelf.old).down → ⊥ }
    requires reach { FmrReaches (regions_of (blocks_of_is c.now.volumes vol)) plex (option_copied fmr) }
    ensures moved { Resyncs c.now vol (Some plex) (missed_or plex (option_copied fmr.entry)) (S.meaning shelf.old) (S.meaning shelf.new) }
    ensures done { OnOk result (Resynced c.now vol (Some plex) (missed_or plex (option_copied fmr.entry)) (S.meaning shelf.old) (S.meaning shelf.new)) }
    ensures count { IfOk result (λ n. n ≡ picked_below (missed_or plex (option_copied fmr.entry)) (regions_of (blocks_of_is c.now.volumes vol))) }
    ensures cause { IfErr result (DeviceCause (S.meaning shelf.old) (S.meaning shelf.new)) }
{
    let source = find_source(c, vol, Some(plex));
    attach_from(c, vol, source, plex, fmr, shelf)
}

// A flush of the plexes that are copied to.
ghost use Rattle.std.specs.Prelude.{◌≡◌, IfErr, IsTrue, OnOk, None, Some};
ghost use Rattle.vx_config.specs.Checks.{is_sound};
ghost use Rattle.vx_disk.specs.Causes.{DeviceCause};
ghost use Rattle.vx_disk.specs.Shelf.{Goes, Nothing};
ghost use Rattle.vx_resync.specs.Copies.{TargetsActive, TargetsFlushed};
ghost use Rattle.vx_resync.specs.Gathers.{TargetRefused};
ghost use Rattle.vx_volume.specs.Plexes.{DisksFit, SomeActive, active as active_is};

use vx_config::Config;
use vx_disk::{Shelf, refusal};
use vx_model::No;
use vx_volume::{flush_all, flush_plex};

fn flush_one<S: Shelf>(config: &Config, vol: u32, plex: u32, shelf: &mut S) -> Result<(), No>
    requires checked { IsTrue (is_sound config.now) }
    requires disks { DisksFit config.now.disks (S.meaning shelf.old) }
    requires is_on { IsTrue (active_is config.now vol plex) }
    requires up { IsTrue (S.meaning shelf.old).down → ⊥ }
    ensures goes { Goes Nothing (S.meaning shelf.old) (S.meaning shelf.new) }
    ensures ok { OnOk result (TargetsFlushed config.now vol (Some plex) (S.meaning shelf.old) (S.meaning shelf.new)) }
    ensures cause { IfErr result (DeviceCause (S.meaning shelf.old) (S.meaning shelf.new)) }
    ensures blamed { TargetRefused config.now vol (Some plex) (S.meaning shelf.old) (S.meaning shelf.new) result }
{
    match flush_plex(config, vol, plex, shelf) {
        Ok(()) => Ok(()),
        Err(error) => Err(refusal(error)),
    }
}

fn flush_each<S: Shelf>(config: &Config, vol: u32, shelf: &mut S) -> Result<(), No>
    requires checked { IsTrue (is_sound config.now) }
    requires disks { DisksFit config.now.disks (S.meaning shelf.old) }
    requires some { SomeActive config.now vol }
    requires up { IsTrue (S.meaning shelf.old).down → ⊥ }
    ensures goes { Goes Nothing (S.meaning shelf.old) (S.meaning shelf.new) }
    ensures ok { OnOk result (TargetsFlushed config.now vol None (S.meaning shelf.old) (S.meaning shelf.new)) }
    ensures cause { IfErr result (DeviceCause (S.meaning shelf.old) (S.meaning shelf.new)) }
{
    match flush_all(config, vol, shelf) {
        Ok(failed) => {
            if failed.set == 0 {
                Ok(())
            } else {
                Err(No::Device { disk: failed.disk })
            }
        }
        Err(no) => Err(no),
    }
}

/// Makes one plex durable, or each that is ACTIVE.
pub fn flush_targets<S: Shelf>(
    config: &Config,
    vol: u32,
    to: Option<u32>,
    shelf: &mut S,
) -> Result<(), No>
    requires checked { IsTrue (is_sound config.now) }
    requires disks { DisksFit config.now.disks (S.meaning shelf.old) }
    requires some { SomeActive config.now vol }
    requires active { TargetsActive config.now vol to }
    requires up { IsTrue (S.meaning shelf.old).down → ⊥ }
    ensures goes { Goes Nothing (S.meaning shelf.old) (S.meaning shelf.new) }
    ensures ok { OnOk result (TargetsFlushed config.now vol to (S.meaning shelf.old) (S.meaning shelf.new)) }
    ensures cause { IfErr result (DeviceCause (S.meaning shelf.old) (S.meaning shelf.new)) }
    ensures blamed { TargetRefused config.now vol to (S.meaning shelf.old) (S.meaning shelf.new) result }
{
    match to {
        Some(plex) => flush_one(config, vol, plex, shelf),
        None => flush_each(config, vol, shelf),
    }
}

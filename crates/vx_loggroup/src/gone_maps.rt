// A log of missed regions that is in memory no more behind an attach: it is committed as lost.
ghost use Rattle.std.specs.Prelude.{◌≡◌, ◌+◌, ◌<◌, ◌≤◌, IfErr, None, OnOk, Option, false, true};
ghost use Rattle.vx_config.specs.Table.{greatest};
ghost use Rattle.vx_config.specs.declared.entry.VolumeLog.TheVariants.{Fmr as FmrLog};
ghost use Rattle.vx_copies.specs.Commits.{MoreFailed};
ghost use Rattle.vx_fmr.specs.Missed.{Missed};
ghost use Rattle.vx_group.specs.Attaches.{GroupAttachEnds, HasOther, IsAttached};
ghost use Rattle.vx_group.specs.Calls.{GroupAttaches};
ghost use Rattle.vx_group.specs.Dets.{DetStops};
ghost use Rattle.vx_group.specs.Finds.{CoreFinds};
ghost use Rattle.vx_group.specs.Holding.{wide};
ghost use Rattle.vx_kept.specs.LogRuns.{log_trusted};
ghost use Rattle.vx_logged.specs.Behind.{MapSaid};
ghost use Rattle.vx_loggroup.specs.Attaching.{fmr_at};
ghost use Rattle.vx_loggroup.specs.Keeping.{LogsStay, logs_at};
ghost use Rattle.vx_loggroup.specs.LoggedVolumes.{LoggedStands};
ghost use Rattle.vx_group.specs.Settles.{CoreSettles};

use crate::attaching::has_maps;
use vx_config::{Config, VolumeLog};
use vx_disk::Shelf;
use vx_group::{GroupCore, lose_attached};
use vx_kept::is_trusted;
use vx_logs::Logs;
use vx_model::Stop;
use vx_model::limits::{COMMIT_SERIALS, MOST_NUMBER, MOST_VOLUMES};

// Whether the log of missed regions of a volume is in memory no more and not held as lost, and serials are left to say so.
fn is_gone(config: &Config, logs: &[Logs], vol: u32) -> bool
    ensures gone { result ≡ true → fmr_at logs.now vol ≡ None }
    ensures more { result ≡ true → config.now.serial + COMMIT_SERIALS < greatest }
    ensures there { result ≡ false → config.now.serial + COMMIT_SERIALS < greatest → log_trusted config.now vol FmrLog ≡ true → fmr_at logs.now vol ≡ None → false ≡ true }
{
    if MOST_NUMBER - COMMIT_SERIALS <= config.serial {
        return false;
    }
    if has_maps(logs, vol) {
        return false;
    }
    is_trusted(config, vol, VolumeLog::Fmr)
}

/// Commits that the log of missed regions of a volume is lost, behind the attach of a plex of it, where it is in memory no more and not held as
/// lost, while serials are left. Where this is refused the plex is held back. All volumes read as before, and each log stands.
pub fn lose_gone<S: Shelf>(
    shelf: &mut S,
    core: &mut GroupCore,
    logs: &Vec<Logs>,
    alike: &[bool; MOST_VOLUMES],
    vol: u32,
    plex: u32,
) -> Result<(), Stop>
    requires stands { LoggedStands core.old logs.now.items alike.now false (S.meaning shelf.old) }
    requires alone { core.old.held ≡ None }
    requires on { IsAttached vol plex core.old.inner.config (S.meaning shelf.old) }
    requires other { HasOther core.old.inner.config vol plex }
    ensures stands { LoggedStands core.new logs.now.items alike.now false (S.meaning shelf.new) }
    ensures attaches { (map : Option Missed) → GroupAttaches vol plex map core.old core.new (S.meaning shelf.old) (S.meaning shelf.new) }
    ensures ends { GroupAttachEnds vol plex core.new.inner.config (S.meaning shelf.new) result }
    ensures failing { MoreFailed (S.meaning shelf.old) (S.meaning shelf.new) core.old.inner.config.disks core.new.inner.config.disks }
    ensures gone { IfErr result (λ e. fmr_at logs.now.items vol ≡ None) }
    ensures kept { OnOk result (MapSaid core.new vol (logs_at logs.now.items vol)) }
    ensures stays { LogsStay core.old.inner.config core.new.inner.config logs.now.items logs.now.items (S.meaning shelf.old) (S.meaning shelf.new) }
    ensures full { greatest ≤ core.old.inner.config.serial + COMMIT_SERIALS → core.new ≡ core.old }
    ensures trust { OnOk result (core.old.inner.committed ≡ true → core.new.inner.committed ≡ true) }
    ensures finds { CoreFinds (wide core.old) (wide core.new) (S.meaning shelf.old) (S.meaning shelf.new) }
    ensures settles { CoreSettles (wide core.old) (wide core.new) (S.meaning shelf.old) (S.meaning shelf.new) }
    ensures free { OnOk result (core.new.held ≡ None) }
    ensures cause { DetStops (S.meaning shelf.old) (S.meaning shelf.new) result }
{
    if !is_gone(&core.inner.config, logs.as_slice(), vol) {
        return Ok(());
    }
    lose_attached(shelf, core, vol, plex, VolumeLog::Fmr)
}

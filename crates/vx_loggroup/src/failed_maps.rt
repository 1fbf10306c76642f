// Maps of missed regions on a disk that is held as failed, by which no plex is attached.
ghost use Rattle.vx_loggroup.specs.Keeping.{LogsKeep, logs_at};
ghost use Rattle.std.specs.Prelude.{◌≡◌, ◌<◌, IfOk, IsTrue, None, Ok, OnOk, Some, Err, false, true};
ghost use Rattle.vx_group.specs.Attaches.{GroupAttachEnds, att_refusal, missed_regions};
ghost use Rattle.vx_group.specs.Dets.{DetStops};
ghost use Rattle.vx_group.specs.Finds.{CoreFinds};
ghost use Rattle.vx_group.specs.Holding.{wide};
ghost use Rattle.vx_group.specs.Regains.{HoldsPlex, Regains};
ghost use Rattle.vx_logged.specs.Behind.{MapSaid};
ghost use Rattle.vx_loggroup.specs.Attaching.{LoggedAttaches, MapHeld, MapsFollow, MapsHeld, leaves_maps, map_by, maps_gone};
ghost use Rattle.vx_loggroup.specs.LoggedVolumes.{LoggedStands, is_alike};
ghost use Rattle.vx_model.specs.declared.errors.Stop.TheVariants.{No as Refused};
ghost use Rattle.vx_model.specs.declared.no.No.{No as NoValue};
ghost use Rattle.vx_volume.specs.Plexes.{active};
ghost use Rattle.vx_group.specs.Settles.{CoreSettles};

use crate::following::att_following;
use vx_config::VolumeLog;
use vx_disk::Shelf;
use vx_group::GroupCore;
use vx_groupmaps::on_failed_disk;
use vx_logs::Logs;
use vx_model::Stop;
use vx_model::limits::MOST_VOLUMES;

// Takes the maps of a volume out of memory.
fn drop_maps(one: &mut Logs)
    ensures drl { one.new.drl ≡ one.old.drl }
    ensures gone { one.new.fmr ≡ None }
{
    one.fmr = None;
}

// Takes the maps of a volume out of memory, where their disk is held as failed.
fn give_up<S: Shelf>(
    shelf: &S,
    core: &GroupCore,
    logs: &mut Vec<Logs>,
    alike: &[bool; MOST_VOLUMES],
    stopped: bool,
    vol: u32,
)
    requires stands { LoggedStands core.now logs.old.items alike.now stopped (S.meaning shelf.now) }
    ensures stands { LoggedStands core.now logs.new.items alike.now stopped (S.meaning shelf.now) }
    ensures held { MapHeld core.now.inner.config vol logs.old.items logs.new.items }
{
    if !on_failed_disk(&core.inner.config, vol, VolumeLog::Fmr) {
        return;
    }
    drop_maps(&mut logs[vol as usize]);
}

// The same of each volume.
fn give_up_all<S: Shelf>(
    shelf: &S,
    core: &GroupCore,
    logs: &mut Vec<Logs>,
    alike: &[bool; MOST_VOLUMES],
    stopped: bool,
)
    requires stands { LoggedStands core.now logs.old.items alike.now stopped (S.meaning shelf.now) }
    ensures stands { LoggedStands core.now logs.new.items alike.now stopped (S.meaning shelf.now) }
    ensures held { MapsHeld core.now.inner.config logs.old.items logs.new.items }
{
    for vol in 0..logs.len() {
        give_up(shelf, core, logs, alike, stopped, vol as u32);
    }
}

/// Attaches a plex, as a group does without logs, and answers how many regions were copied: those that it has missed by its map, or all of the
/// volume where no map is in memory, or where its disk is held as failed; all maps on such disks are in memory no more, as the attach may hold one as
/// good again. Of the plex it writes blocks of these regions alone. No other map changes, but where a write of the volume was refused since the import:
/// then the map of a plex that is attached has the regions that the map of a plex has that was ACTIVE. Where that map is in memory no more, its log is
/// committed as lost, while serials are left; where this is refused so is the attach, and the plex is held back.
pub fn att_held<S: Shelf>(
    shelf: &mut S,
    core: &mut GroupCore,
    logs: &mut Vec<Logs>,
    alike: &[bool; MOST_VOLUMES],
    stopped: bool,
    vol: u32,
    plex: u32,
) -> Result<u64, Stop>
    requires stands { LoggedStands core.old logs.old.items alike.now stopped (S.meaning shelf.old) }
    ensures stands { LoggedStands core.new logs.new.items alike.now stopped (S.meaning shelf.new) }
    ensures refused { (no : NoValue) → att_refusal core.old.inner.config vol plex ≡ Some no → (result ≡ Err (Refused no)) × (core.new ≡ core.old) × (shelf.new ≡ shelf.old) }
    ensures tests { (no : NoValue) → att_refusal core.old.inner.config vol plex ≡ Some no → MapsHeld core.old.inner.config logs.old.items logs.new.items }
    ensures already { att_refusal core.old.inner.config vol plex ≡ None → IsTrue (active core.old.inner.config vol plex) → (result ≡ Ok 0) × (core.new ≡ core.old) × (shelf.new ≡ shelf.old) }
    ensures count { active core.old.inner.config vol plex ≡ false → IfOk result (λ n. n ≡ missed_regions core.old.inner.config vol plex (map_by logs.old.items core.old.inner.config stopped (S.meaning shelf.old).down vol plex)) }
    ensures attaches { LoggedAttaches (leaves_maps (is_alike alike.now vol) stopped (maps_gone core.old.inner.config logs.old.items logs.new.items vol) result) vol plex (map_by logs.old.items core.old.inner.config stopped (S.meaning shelf.old).down vol plex) core.old core.new (S.meaning shelf.old) (S.meaning shelf.new) }
    ensures ends { active core.old.inner.config vol plex ≡ false → GroupAttachEnds vol plex core.new.inner.config (S.meaning shelf.new) result }
    ensures regains { Regains core.old.inner.config core.new.inner.config vol plex (S.meaning shelf.old) (S.meaning shelf.new) }
    ensures held { active core.old.inner.config vol plex ≡ false → OnOk result (HoldsPlex (λ s. S.meaning s) core.old.inner.config core.new.inner.config vol plex shelf.new) }
    ensures maps { leaves_maps (is_alike alike.now vol) stopped (maps_gone core.old.inner.config logs.old.items logs.new.items vol) result ≡ true → MapsHeld core.old.inner.config logs.old.items logs.new.items }
    ensures follows { leaves_maps (is_alike alike.now vol) stopped (maps_gone core.old.inner.config logs.old.items logs.new.items vol) result ≡ false → MapsFollow core.old.inner.config vol plex logs.old.items logs.new.items }
    ensures kept { active core.old.inner.config vol plex ≡ false → is_alike alike.now vol ≡ false → stopped ≡ false → OnOk result (MapSaid core.new vol (logs_at logs.new.items vol)) }
    ensures keeps { LogsKeep core.old core.new logs.old.items logs.new.items (S.meaning shelf.old) (S.meaning shelf.new) }
    ensures trust { OnOk result (core.old.inner.committed ≡ true → core.new.inner.committed ≡ true) }
    ensures finds { CoreFinds (wide core.old) (wide core.new) (S.meaning shelf.old) (S.meaning shelf.new) }
    ensures settles { CoreSettles (wide core.old) (wide core.new) (S.meaning shelf.old) (S.meaning shelf.new) }
    ensures free { OnOk result (core.old.held ≡ None → core.new.held ≡ None) }
    ensures cause { att_refusal core.old.inner.config vol plex ≡ None → DetStops (S.meaning shelf.old) (S.meaning shelf.new) result }
{
    give_up_all(shelf, core, logs, alike, stopped);
    att_following(shelf, core, logs, alike, stopped, vol, plex)
}

// A plex that is attached in a volume of which a write was refused: its map becomes that of a plex that was ACTIVE.
ghost use Rattle.vx_loggroup.specs.Keeping.{LogsKeep, LogsStay, logs_at};
ghost use Rattle.vx_kept.specs.Finds.{FindsFrom, NoConfiguration};
ghost use Rattle.vx_group.specs.Finds.{CoreFinds};
ghost use Rattle.std.specs.Prelude.{◌≡◌, ◌<◌, ◌≤◌, ℕ, IfOk, IfSome, IsTrue, None, Ok, OnOk, Some, Err, false, is_some, length, true};
ghost use Rattle.vx_config.specs.Checks.{plexes_of};
ghost use Rattle.vx_disk.specs.Shelf.{Goes, Nothing};
ghost use Rattle.vx_group.specs.Attaches.{GroupAttachEnds, att_refusal, missed_regions};
ghost use Rattle.vx_group.specs.Dets.{DetStops};
ghost use Rattle.vx_group.specs.Holding.{wide};
ghost use Rattle.vx_group.specs.Regains.{HoldsPlex, Regains};
ghost use Rattle.vx_group.specs.Stands.{inner_meaning};
ghost use Rattle.vx_groupmaps.specs.Missing.{OnMaps};
ghost use Rattle.vx_logged.specs.Behind.{MapSaid};
ghost use Rattle.vx_logged.specs.Copied.{ReadsRow};
ghost use Rattle.vx_loggroup.specs.Attaching.{LoggedAttaches, MapSource, TakesActive, VolumeTakes, fmr_at, leaves_maps, map_there, went};
ghost use Rattle.vx_loggroup.specs.LoggedVolumes.{LoggedStands, is_alike as is_alike_is};
ghost use Rattle.vx_model.specs.declared.errors.Stop.TheVariants.{No as Refused};
ghost use Rattle.vx_model.specs.declared.limits.TheConstants.{MOST_PLEXES, MOST_VOLUMES};
ghost use Rattle.vx_model.specs.declared.no.No.{No as NoValue};
ghost use Rattle.vx_volume.specs.Plexes.{active};
ghost use Rattle.vx_group.specs.Settles.{CoreSettles};

use crate::alike::is_alike;
use crate::attaching::{att_whole, has_maps};
use crate::gone_maps::lose_gone;
use vx_config::{Config, blocks_of};
use vx_disk::Shelf;
use vx_group::GroupCore;
use vx_logged::copy_plex;
use vx_logs::Logs;
use vx_model::Stop;
use vx_model::limits::{MOST_PLEXES, MOST_VOLUMES};
use vx_volume::is_active;

// The first plex of a volume that is ACTIVE.
fn first_active(config: &Config, vol: u32) -> Option<u32>
    ensures on { IfSome result (λ q. IsTrue (active config.now vol q)) }
    ensures all { (q : ℕ) → q < MOST_PLEXES → IsTrue (active config.now vol q) → is_some result ≡ true }
{
    for plex in 0..MOST_PLEXES as u32 {
        if is_active(config, vol, plex) {
            return Some(plex);
        }
    }
    None
}

// Whether the map of a plex that is attached becomes that of another one: where it was not ACTIVE, logs go on, and the plexes are not alike.
fn may_follow(
    config: &Config,
    alike: &[bool; MOST_VOLUMES],
    stopped: bool,
    vol: u32,
    plex: u32,
) -> bool
    requires few { length config.now.volumes ≤ MOST_VOLUMES }
    ensures off { result ≡ true → active config.now vol plex ≡ false }
    ensures going { result ≡ true → stopped ≡ false }
    ensures apart { result ≡ true → is_alike_is alike.now vol ≡ false }
    ensures all { vol < length config.now.volumes → active config.now vol plex ≡ false → stopped ≡ false → is_alike_is alike.now vol ≡ false → result ≡ true }
{
    if stopped {
        return false;
    }
    if config.volumes.as_slice().len() <= vol as usize {
        return false;
    }
    if is_active(config, vol, plex) {
        return false;
    }
    !is_alike(alike, vol)
}

// The plex of which one that is attached takes the map, where it does.
fn source_of(
    config: &Config,
    alike: &[bool; MOST_VOLUMES],
    stopped: bool,
    vol: u32,
    plex: u32,
) -> Option<u32>
    requires few { length config.now.volumes ≤ MOST_VOLUMES }
    ensures is { IfSome result (MapSource config.now alike.now stopped vol plex) }
    ensures all { vol < length config.now.volumes → active config.now vol plex ≡ false → stopped ≡ false → is_alike_is alike.now vol ≡ false → (q : ℕ) → q < MOST_PLEXES → IsTrue (active config.now vol q) → is_some result ≡ true }
{
    if !may_follow(config, alike, stopped, vol, plex) {
        return None;
    }
    first_active(config, vol)
}

// Gives the map of a plex of a volume the regions that the map of another one has, where out of them it reads what those read that are ACTIVE.
fn take_map<S: Shelf>(
    shelf: &mut S,
    core: &GroupCore,
    logs: &mut Vec<Logs>,
    alike: &[bool; MOST_VOLUMES],
    vol: u32,
    plex: u32,
    from: u32,
)
    requires stands { LoggedStands core.now logs.old.items alike.now false (S.meaning shelf.old) }
    requires there { vol < length core.now.inner.config.volumes }
    requires to { plex < plexes_of (wide core.now).config vol }
    requires from { from < plexes_of (wide core.now).config vol }
    requires apart { plex ≡ from → ⊥ }
    requires reads { ReadsRow (wide core.now).config vol plex from (logs_at logs.old.items vol) (S.meaning shelf.old) }
    ensures stands { LoggedStands core.now logs.new.items alike.now false (S.meaning shelf.new) }
    ensures below { Goes (OnMaps (wide core.now).config vol) (S.meaning shelf.old) (S.meaning shelf.new) }
    ensures goes { Goes Nothing (inner_meaning (wide core.now) (S.meaning shelf.old)) (inner_meaning (wide core.now) (S.meaning shelf.new)) }
    ensures takes { VolumeTakes vol plex from logs.old.items logs.new.items }
    ensures less { FindsFrom NoConfiguration (S.meaning shelf.old) (S.meaning shelf.new) }
    ensures stays { LogsStay core.now.inner.config core.now.inner.config logs.old.items logs.new.items (S.meaning shelf.old) (S.meaning shelf.new) }
    ensures none { fmr_at logs.old.items vol ≡ None → (logs.new.items ≡ logs.old.items) × (shelf.new ≡ shelf.old) }
{
    if blocks_of(&core.inner.config, vol) == 0 {
        return;
    }
    if !has_maps(logs.as_slice(), vol) {
        return;
    }
    copy_plex(shelf, core, &mut logs[vol as usize], vol, plex, from)
}

/// Attaches a plex, as a group does without logs, and answers how many regions were copied: those that it has missed by its map, or all of the
/// volume where no map is in memory. Of the plex it writes blocks of these regions alone. No map changes, but where a write of the volume was refused
/// since the import: then the map of a plex that is attached has the regions that the map of a plex has that was ACTIVE. Where that map is in memory
/// no more, its log is committed as lost, while serials are left; where this is refused so is the attach, and the plex is held back.
pub fn att_following<S: Shelf>(
    shelf: &mut S,
    core: &mut GroupCore,
    logs: &mut Vec<Logs>,
    alike: &[bool; MOST_VOLUMES],
    stopped: bool,
    vol: u32,
    plex: u32,
) -> Result<u64, Stop>
    requires stands { LoggedStands core.old logs.old.items alike.now stopped (S.meaning shelf.old) }
    ensures stands { LoggedStands core.new logs.new.items alike.now stopped (S.meaning shelf.new) }
    ensures refused { (no : NoValue) → att_refusal core.old.inner.config vol plex ≡ Some no → (result ≡ Err (Refused no)) × (core.new ≡ core.old) × (shelf.new ≡ shelf.old) }
    ensures tests { (no : NoValue) → att_refusal core.old.inner.config vol plex ≡ Some no → logs.new.items ≡ logs.old.items }
    ensures already { att_refusal core.old.inner.config vol plex ≡ None → IsTrue (active core.old.inner.config vol plex) → (result ≡ Ok 0) × (core.new ≡ core.old) × (shelf.new ≡ shelf.old) }
    ensures count { active core.old.inner.config vol plex ≡ false → IfOk result (λ n. n ≡ missed_regions core.old.inner.config vol plex (map_there logs.old.items core.old.inner.config stopped (S.meaning shelf.old).down vol plex)) }
    ensures attaches { LoggedAttaches (leaves_maps (is_alike_is alike.now vol) stopped (went logs.old.items logs.new.items vol) result) vol plex (map_there logs.old.items core.old.inner.config stopped (S.meaning shelf.old).down vol plex) core.old core.new (S.meaning shelf.old) (S.meaning shelf.new) }
    ensures ends { active core.old.inner.config vol plex ≡ false → GroupAttachEnds vol plex core.new.inner.config (S.meaning shelf.new) result }
    ensures regains { Regains core.old.inner.config core.new.inner.config vol plex (S.meaning shelf.old) (S.meaning shelf.new) }
    ensures held { active core.old.inner.config vol plex ≡ false → OnOk result (HoldsPlex (λ s. S.meaning s) core.old.inner.config core.new.inner.config vol plex shelf.new) }
    ensures maps { leaves_maps (is_alike_is alike.now vol) stopped (went logs.old.items logs.new.items vol) result ≡ true → logs.new.items ≡ logs.old.items }
    ensures takes { leaves_maps (is_alike_is alike.now vol) stopped (went logs.old.items logs.new.items vol) result ≡ false → TakesActive core.old.inner.config vol plex logs.old.items logs.new.items }
    ensures kept { active core.old.inner.config vol plex ≡ false → is_alike_is alike.now vol ≡ false → stopped ≡ false → OnOk result (MapSaid core.new vol (logs_at logs.new.items vol)) }
    ensures keeps { LogsKeep core.old core.new logs.old.items logs.new.items (S.meaning shelf.old) (S.meaning shelf.new) }
    ensures trust { OnOk result (core.old.inner.committed ≡ true → core.new.inner.committed ≡ true) }
    ensures finds { CoreFinds (wide core.old) (wide core.new) (S.meaning shelf.old) (S.meaning shelf.new) }
    ensures settles { CoreSettles (wide core.old) (wide core.new) (S.meaning shelf.old) (S.meaning shelf.new) }
    ensures free { OnOk result (core.old.held ≡ None → core.new.held ≡ None) }
    ensures cause { att_refusal core.old.inner.config vol plex ≡ None → DetStops (S.meaning shelf.old) (S.meaning shelf.new) result }
{
    let source = source_of(&core.inner.config, alike, stopped, vol, plex);
    match att_whole(shelf, core, logs, alike, stopped, vol, plex) {
        Ok(copied) => match source {
            Some(from) => {
                take_map(shelf, core, logs, alike, vol, plex, from);
                match lose_gone(shelf, core, logs, alike, vol, plex) {
                    Ok(()) => Ok(copied),
                    Err(stop) => Err(stop),
                }
            }
            None => Ok(copied),
        },
        Err(stop) => Err(stop),
    }
}

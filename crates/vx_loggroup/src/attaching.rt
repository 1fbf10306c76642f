// A plex of a group with logs that is attached.
ghost use Rattle.vx_loggroup.specs.Keeping.{LogsKeep};
ghost use Rattle.vx_group.specs.Holding.{wide};
ghost use Rattle.vx_group.specs.Finds.{CoreFinds};
ghost use Rattle.std.specs.Option.{option_copied};
ghost use Rattle.std.specs.Prelude.{◌≡◌, ◌⊎◌, ◌<◌, false, IfOk, IsTrue, None, Ok, OnOk, Some, Err, is_some, true};
ghost use Rattle.vx_group.specs.Attaches.{GroupAttachEnds, att_refusal, missed_regions};
ghost use Rattle.vx_group.specs.Calls.{GroupAttaches};
ghost use Rattle.vx_group.specs.Dets.{DetStops};
ghost use Rattle.vx_group.specs.Regains.{HoldsPlex, Regains};
ghost use Rattle.vx_loggroup.specs.Attaching.{fmr_at, map_there};
ghost use Rattle.vx_loggroup.specs.LoggedVolumes.{LoggedStands};
ghost use Rattle.vx_model.specs.declared.errors.Stop.TheVariants.{No as Refused};
ghost use Rattle.vx_model.specs.declared.no.No.{No as NoValue};
ghost use Rattle.vx_volume.specs.Plexes.{active};
ghost use Rattle.vx_group.specs.Settles.{CoreSettles};

use vx_config::Config;
use vx_disk::Shelf;
use vx_fmr::Fmr;
use vx_group::{GroupCore, att_in};
use vx_logs::Logs;
use vx_model::Stop;
use vx_model::limits::MOST_VOLUMES;
use vx_volume::plex_count;

// The maps of a volume in memory, where there are any.
fn fmr_of(logs: &[Logs], vol: usize) -> Option<&Fmr>
    ensures { option_copied result ≡ fmr_at logs.now vol }
{
    match logs.get(vol) {
        Some(l) => l.fmr.as_ref(),
        None => None,
    }
}

/// Whether the maps of a volume are in memory.
pub fn has_maps(logs: &[Logs], vol: u32) -> bool
    ensures { result ≡ is_some (fmr_at logs.now vol) }
{
    match logs.get(vol as usize) {
        Some(l) => l.fmr.is_some(),
        None => false,
    }
}

// The maps by which a plex is attached.
fn map_of<'a>(
    logs: &'a [Logs],
    config: &Config,
    stopped: bool,
    down: bool,
    vol: u32,
    plex: u32,
) -> Option<&'a Fmr>
    ensures by { option_copied result ≡ map_there logs.now config.now stopped down vol plex }
{
    if stopped {
        return None;
    }
    if down {
        return None;
    }
    if plex_count(config, vol) <= plex {
        return None;
    }
    fmr_of(logs, vol as usize)
}

/// Attaches a plex, as a group does without logs, and answers how many regions were copied: those that it has missed by its map, or all of the
/// volume where no map is in memory. It writes blocks of these regions of the plex alone, and no map changes.
pub fn att_whole<S: Shelf>(
    shelf: &mut S,
    core: &mut GroupCore,
    logs: &Vec<Logs>,
    alike: &[bool; MOST_VOLUMES],
    stopped: bool,
    vol: u32,
    plex: u32,
) -> Result<u64, Stop>
    requires stands { LoggedStands core.old logs.now.items alike.now stopped (S.meaning shelf.old) }
    ensures stands { LoggedStands core.new logs.now.items alike.now stopped (S.meaning shelf.new) }
    ensures refused { (no : NoValue) → att_refusal core.old.inner.config vol plex ≡ Some no → (result ≡ Err (Refused no)) × (core.new ≡ core.old) × (shelf.new ≡ shelf.old) }
    ensures already { att_refusal core.old.inner.config vol plex ≡ None → IsTrue (active core.old.inner.config vol plex) → (result ≡ Ok 0) × (core.new ≡ core.old) × (shelf.new ≡ shelf.old) }
    ensures count { active core.old.inner.config vol plex ≡ false → IfOk result (λ n. n ≡ missed_regions core.old.inner.config vol plex (map_there logs.now.items core.old.inner.config stopped (S.meaning shelf.old).down vol plex)) }
    ensures attaches { GroupAttaches vol plex (map_there logs.now.items core.old.inner.config stopped (S.meaning shelf.old).down vol plex) core.old core.new (S.meaning shelf.old) (S.meaning shelf.new) }
    ensures ends { active core.old.inner.config vol plex ≡ false → GroupAttachEnds vol plex core.new.inner.config (S.meaning shelf.new) result }
    ensures regains { Regains core.old.inner.config core.new.inner.config vol plex (S.meaning shelf.old) (S.meaning shelf.new) }
    ensures held { active core.old.inner.config vol plex ≡ false → OnOk result (HoldsPlex (λ s. S.meaning s) core.old.inner.config core.new.inner.config vol plex shelf.new) }
    ensures keeps { LogsKeep core.old core.new logs.now.items logs.now.items (S.meaning shelf.old) (S.meaning shelf.new) }
    ensures trust { OnOk result (core.old.inner.committed ≡ true → core.new.inner.committed ≡ true) }
    ensures finds { CoreFinds (wide core.old) (wide core.new) (S.meaning shelf.old) (S.meaning shelf.new) }
    ensures settles { CoreSettles (wide core.old) (wide core.new) (S.meaning shelf.old) (S.meaning shelf.new) }
    ensures free { OnOk result (core.old.held ≡ None → core.new.held ≡ None) }
    ensures alone { active core.old.inner.config vol plex ≡ false → OnOk result (core.new.held ≡ None) }
    ensures cause { att_refusal core.old.inner.config vol plex ≡ None → DetStops (S.meaning shelf.old) (S.meaning shelf.new) result }
{
    let down = shelf.is_down();
    let fmr = map_of(
        logs.as_slice(),
        &core.inner.config,
        stopped,
        down,
        vol,
        plex,
    );
    att_in(shelf, core, vol, plex, fmr)
}

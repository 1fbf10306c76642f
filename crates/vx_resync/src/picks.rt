// Whether a region is copied.
ghost use Rattle.std.specs.Prelude.{◌≡◌, ◌+◌, ◌<◌, ℕ};
ghost use Rattle.std.specs.Option.{option_copied};
ghost use Rattle.vx_resync.specs.Picks.{DrlReaches, FmrReaches, MapsReach, is_picked as is_picked_is, marked_or, missed_or};

use vx_drl::Drl;
use vx_fmr::Fmr;

fn is_marked(drl: Option<&Drl>, region: u64) -> bool
    requires inside { DrlReaches (region + 1) (option_copied drl) }
    ensures { result ≡ marked_or (option_copied drl.entry) region }
{
    match drl {
        Some(log) => log.dirty(region),
        None => true,
    }
}

fn has_missed(plex: u32, fmr: Option<&Fmr>, region: u64) -> bool
    requires inside { FmrReaches (region + 1) plex (option_copied fmr) }
    ensures { result ≡ missed_or plex (option_copied fmr.entry) region }
{
    match fmr {
        Some(map) => map.missed(plex, region),
        None => true,
    }
}

/// Whether a region is copied: to all plexes where it is marked in the log, and to one alone where that has missed it. Without log or map
/// each region is.
pub fn is_picked(to: Option<u32>, drl: Option<&Drl>, fmr: Option<&Fmr>, region: u64) -> bool
    requires inside { MapsReach (region + 1) to (option_copied drl) (option_copied fmr) }
    ensures { result ≡ is_picked_is to (option_copied drl.entry) (option_copied fmr.entry) region }
{
    match to {
        Some(plex) => has_missed(plex, fmr, region),
        None => is_marked(drl, region),
    }
}

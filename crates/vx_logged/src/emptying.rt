// Maps of plexes that are emptied before a refused write is noted, whatever plex is held back.
ghost use Rattle.vx_grouplogs.specs.Gone.{LogsDrop};
ghost use Rattle.vx_kept.specs.Finds.{FindsFrom, NoConfiguration};
ghost use Rattle.std.specs.Prelude.{◌≡◌, ◌<◌, ℕ, Bool, IsTrue, false, true};
ghost use Rattle.vx_config.specs.Checks.{blocks_of as blocks_of_is, plexes_of};
ghost use Rattle.vx_disk.specs.Shelf.{Goes, Nothing};
ghost use Rattle.vx_group.specs.Holding.{GroupStands, wide};
ghost use Rattle.vx_group.specs.Stands.{inner_meaning};
ghost use Rattle.vx_groupmaps.specs.Knowing.{PlexesKnow};
ghost use Rattle.vx_groupmaps.specs.Missing.{OnMaps};
ghost use Rattle.vx_logged.specs.Begun.{MapsBut, MapsOff, if_sure, was_on};
ghost use Rattle.vx_logged.specs.Behind.{none_missing};
ghost use Rattle.vx_logged.specs.Logged.{KnownBy, LogOn, OthersOn};
ghost use Rattle.vx_logs.specs.Noting.{this_plex};
ghost use Rattle.vx_model.specs.declared.limits.TheConstants.{MOST_PLEXES};

use vx_disk::Shelf;
use vx_group::GroupCore;
use vx_groupmaps::begin_map;
use vx_logs::Logs;
use vx_model::limits::MOST_PLEXES;

// Whether a plex is one of a list.
fn listed(was: &[bool; MOST_PLEXES], plex: u32) -> bool
    requires few { plex < MOST_PLEXES }
    ensures { result ≡ was_on was.now plex }
{
    was[plex as usize]
}

// Empties the map of a plex. A log of which the disk fails is in memory no more.
fn empty_plex<S: Shelf>(shelf: &mut S, core: &GroupCore, logs: &mut Logs, vol: u32, plex: u32)
    requires stands { GroupStands core.now (S.meaning shelf.old) }
    requires some { 0 < blocks_of_is (wide core.now).config.volumes vol }
    requires exists { plex < plexes_of (wide core.now).config vol }
    requires log { LogOn core.now vol logs.old (S.meaning shelf.old) }
    ensures stands { GroupStands core.now (S.meaning shelf.new) }
    ensures below { Goes (OnMaps (wide core.now).config vol) (S.meaning shelf.old) (S.meaning shelf.new) }
    ensures goes { Goes Nothing (inner_meaning (wide core.now) (S.meaning shelf.old)) (inner_meaning (wide core.now) (S.meaning shelf.new)) }
    ensures log { LogOn core.now vol logs.new (S.meaning shelf.new) }
    ensures others { OthersOn vol core.now core.now (S.meaning shelf.old) (S.meaning shelf.new) }
    ensures drl { logs.new.drl ≡ logs.old.drl }
    ensures drops { LogsDrop (wide core.now).config vol logs.old logs.new (S.meaning shelf.old) (S.meaning shelf.new) }
    ensures less { FindsFrom NoConfiguration (S.meaning shelf.old) (S.meaning shelf.new) }
    ensures knows { (spare missed : ℕ → ℕ → Bool) → ((r : ℕ) → spare plex r ≡ false → missed plex r ≡ false) → ((IsTrue (S.meaning shelf.old).down → ⊥) → PlexesKnow (wide core.now).config vol missed (S.meaning shelf.old).reads) → KnownBy core.now vol spare logs.old (S.meaning shelf.old) → KnownBy core.now vol spare logs.new (S.meaning shelf.new) }
    ensures notes { (these : ℕ → Bool) → these plex ≡ true → MapsBut these none_missing 0 0 logs.old logs.new }
    ensures begins { MapsOff (this_plex plex) logs.new }
{
    match begin_map(logs, &core.inner.config, vol, shelf, plex) {
        Ok(_) => return,
        Err(_) => {}
    }
    logs.fmr = None;
}

/// Empties the map of each plex of a list, where the caller is sure what these read. A log of which the disk fails is in memory no more.
pub fn empty_listed<S: Shelf>(
    shelf: &mut S,
    core: &GroupCore,
    logs: &mut Logs,
    sure: bool,
    was: &[bool; MOST_PLEXES],
    vol: u32,
)
    requires stands { GroupStands core.now (S.meaning shelf.old) }
    requires some { 0 < blocks_of_is (wide core.now).config.volumes vol }
    requires exists { (p : ℕ) → was_on was.now p ≡ true → p < plexes_of (wide core.now).config vol }
    requires log { LogOn core.now vol logs.old (S.meaning shelf.old) }
    ensures stands { GroupStands core.now (S.meaning shelf.new) }
    ensures below { Goes (OnMaps (wide core.now).config vol) (S.meaning shelf.old) (S.meaning shelf.new) }
    ensures goes { Goes Nothing (inner_meaning (wide core.now) (S.meaning shelf.old)) (inner_meaning (wide core.now) (S.meaning shelf.new)) }
    ensures log { LogOn core.now vol logs.new (S.meaning shelf.new) }
    ensures others { OthersOn vol core.now core.now (S.meaning shelf.old) (S.meaning shelf.new) }
    ensures drl { logs.new.drl ≡ logs.old.drl }
    ensures drops { LogsDrop (wide core.now).config vol logs.old logs.new (S.meaning shelf.old) (S.meaning shelf.new) }
    ensures less { FindsFrom NoConfiguration (S.meaning shelf.old) (S.meaning shelf.new) }
    ensures knows { (spare missed : ℕ → ℕ → Bool) → ((p r : ℕ) → was_on was.now p ≡ true → spare p r ≡ false → missed p r ≡ false) → (sure ≡ true → (IsTrue (S.meaning shelf.old).down → ⊥) → PlexesKnow (wide core.now).config vol missed (S.meaning shelf.old).reads) → KnownBy core.now vol spare logs.old (S.meaning shelf.old) → KnownBy core.now vol spare logs.new (S.meaning shelf.new) }
    ensures notes { MapsBut (if_sure sure was.now) none_missing 0 0 logs.old logs.new }
    ensures begins { sure ≡ true → MapsOff (was_on was.now) logs.new }
{
    if !sure {
        return;
    }
    for plex in 0..MOST_PLEXES as u32 {
        if listed(was, plex) {
            empty_plex(shelf, core, logs, vol, plex);
        }
    }
}
